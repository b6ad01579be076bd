// Lines in a list of numbers, seven to a line: whether one of them equals a given line.

#![tactic(auto)]

ghost use Rattle.std.specs.Prelude.{◌≡◌, ◌+◌, ◌*◌, ◌≤◌, length};
ghost use Rattle.listed_lines.specs.Listed.{line_numbers, numbers_of, stands_at, is_listed};

use trail::Line;

// The numbers of a line.
pub const LINE_NUMBERS: usize = 7;

// Whether one of the first `count` lines of the list equals this one.
pub fn is_listed(list: &[u64], count: usize, line: Line) -> bool
    requires { line_numbers * count ≤ length list.now }
    ensures { result ≡ is_listed list.now count line }
{
    let numbers = numbers_of(line);
    for i in 0..count {
        if stands_at(list, LINE_NUMBERS * i, &numbers) {
            return true;
        }
    }
    false
}

// Whether a line's numbers stand in the list at a position.
fn stands_at(list: &[u64], at: usize, numbers: &[u64]) -> bool
    requires { (length numbers.now ≡ line_numbers) × (at + line_numbers ≤ length list.now) }
    ensures { result ≡ stands_at list.now at numbers.now }
{
    &list[at..at + LINE_NUMBERS] == numbers
}

// A line's numbers. The first of them, its fingerprint, nearly always tells two lines apart: a search is one comparison a line.
pub fn numbers_of(line: Line) -> [u64; LINE_NUMBERS]
    ensures { result ≡ numbers_of line }
{
    let first = line.first as u64;
    let second = line.second as u64;
    [
        first << 48 ^ second << 32 ^ line.constant ^ line.difference,
        first,
        second,
        line.difference,
        line.constant,
        line.kind as u64,
        line.amount as u64,
    ]
}
