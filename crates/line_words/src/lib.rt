// The word that a line makes, by its kind (document 01, "The sheet"; document 02, W-201).

#![tactic(auto)]

ghost use Rattle.std.specs.Prelude.{◌≡◌, true, cond, ◌^◌, ◌≤◌, ◌<◌};
ghost use Rattle.trail.specs.Kinds.{kind_of, uses_second, uses_amount, makes};

use trail::Line;

// The word of n bits that a line makes from its operands' words.
#[tactic(auto, unfolding(trail::specs::Kinds::makes, trail::specs::Kinds::kind_of))]
pub fn word_made(n: u32, line: Line, x: u64, y: u64) -> u64
    requires { (1 ≤ n) × (n ≤ 64) × (x < 2 ^ n)
        × (uses_amount (kind_of line.kind) ≡ true → ((1 ≤ line.amount) × (line.amount < n))) }
    ensures { result ≡ makes n line x y }
{
    let kind = line.kind;
    match kind {
        1..=2 => x ^ other_input(line, y),
        3 => arithmetic::rotate_left(n, line.amount, x),
        4 => arithmetic::rotate_right(n, line.amount, x),
        5..=6 => arithmetic::add(n, x, other_input(line, y)),
        7 => arithmetic::shift_left(n, line.amount, x),
        8 => arithmetic::shift_right(line.amount, x),
        9 => arithmetic::subtract(n, x, other_input(line, y)),
        _ => 0,
    }
}

// What a line takes beside its first operand's word: the second operand's word if its kind uses one, else the constant.
fn other_input(line: Line, y: u64) -> u64
    ensures { result ≡ cond (uses_second (kind_of line.kind)) y line.constant }
{
    let kind = line.kind;
    match kind {
        1 | 5 | 9 => y,
        _ => line.constant,
    }
}
