// Kinds 1 to 4, 7 and 8, whose result's difference is the same for all operand values.
ghost use Rattle.std.specs.Prelude.{◌≡◌, ◌≤◌};
ghost use Rattle.differential.specs.Demand2.{Proper};
ghost use Rattle.differential.specs.Report.{report_means, certain_if, given_difference};

use arithmetic::{rotate_left, rotate_right, shift_left, shift_right};
use differential::{Differential, LineReport};

// Certain if the stated difference is the one that the operands' differences give, else impossible.
pub(crate) fn certain_if(d: Differential) -> LineReport
    requires { Proper d × (d.width ≤ 64) }
    ensures { report_means result ≡ certain_if d.line.difference (given_difference d) }
{
    let line = d.line;
    if line.difference == given_difference(d) {
        LineReport::Certain
    } else {
        LineReport::Impossible
    }
}

// The XOR, copy, rotation or shift of the operands' differences; a line of another kind gives none, written 0.
fn given_difference(d: Differential) -> u64
    requires { Proper d × (d.width ≤ 64) }
    ensures { result ≡ given_difference d }
{
    let line = d.line;
    let kind = line.kind;
    match kind {
        1 => d.first ^ d.second,
        2 => d.first,
        3 => rotate_left(d.width, line.amount, d.first),
        4 => rotate_right(d.width, line.amount, d.first),
        7 => shift_left(d.width, line.amount, d.first),
        8 => shift_right(line.amount, d.first),
        _ => 0,
    }
}
