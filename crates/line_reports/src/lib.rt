// One line's report: whether its differential can happen, and what it costs (document 01, "Line reports"; document 02, W-201).

#![tactic(auto)]

mod linear_kinds;
mod two_words;

ghost use Rattle.std.specs.Prelude.{◌≡◌, ◌≤◌};
ghost use Rattle.differential.specs.Demand2.{Proper};
ghost use Rattle.differential.specs.Report.{report_means, report_of};

use crate::linear_kinds::certain_if;
use crate::two_words::words_report;
use chains::constant_report;
use differential::{Differential, LineReport};

// The report of a line with proper differences, of width 32 at most.
pub fn report(d: Differential) -> LineReport
    requires { Proper d × (d.width ≤ 32) }
    ensures { report_means result ≡ report_of d }
{
    let line = d.line;
    let kind = line.kind;
    match kind {
        1..=4 | 7..=8 => certain_if(d),
        5 => words_report(d.width, d.first, d.second, line.difference),
        6 => constant_report(d.width, line.constant, d.first, line.difference),
        9 => words_report(d.width, line.difference, d.second, d.first),
        _ => LineReport::Impossible,
    }
}
