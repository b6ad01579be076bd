// What questions 12, 13 and 15 ask of a line's fields, by its kind (document 01, "Questions, in order"; document 02, W-201).

#![tactic(auto)]

ghost use Rattle.std.specs.Prelude.{◌≡◌, ◌≤◌, ◌&&◌, eqb};
ghost use Rattle.sheet.specs.Questions.{amount_right, constant_right, unused_zero};

use arithmetic::is_word;
use sheet::Record;
use sheet_fields::predicates::within;

// Whether the amount of kinds 3, 4, 7 and 8 is from 1 to n - 1.
pub fn amount_right(line: Record, n: u32) -> bool
    requires { 1 ≤ n }
    ensures { result ≡ amount_right line n }
{
    let kind = line.kind;
    match kind {
        3..=4 | 7..=8 => within(1, n as usize - 1, line.amount as usize),
        _ => true,
    }
}

// Whether the constant of kinds 2 and 6 is a word.
pub fn constant_right(line: Record, n: u32) -> bool
    requires { (1 ≤ n) × (n ≤ 64) }
    ensures { result ≡ constant_right line n }
{
    let kind = line.kind;
    match kind {
        2 | 6 => is_word(n, line.constant),
        _ => true,
    }
}

// Whether two fields are zero.
fn both_zero(a: u64, b: u64) -> bool
    ensures { result ≡ (eqb a 0 && eqb b 0) }
{
    a == 0 && b == 0
}

// Whether the zero field and the fields that the kind does not use are zero.
pub fn unused_zero(line: Record) -> bool
    requires { (1 ≤ line.kind) × (line.kind ≤ 9) }
    ensures { result ≡ unused_zero line }
{
    if line.zero != 0 {
        return false;
    }
    let kind = line.kind;
    match kind {
        1 | 5 | 9 => both_zero(line.amount as u64, line.constant),
        3..=4 | 7..=8 => both_zero(line.second as u64, line.constant),
        _ => both_zero(line.amount as u64, line.second as u64),
    }
}
