// The reports of a sheet that was read: one line's differential and report, and the totals (document 01, "Line reports"; document 02,
// W-202).

#![tactic(auto)]

ghost use Rattle.std.specs.Prelude.{◌≡◌, ◌<◌, ◌^◌};
ghost use Rattle.sheet.specs.Fields.{trail_of};
ghost use Rattle.differential.specs.Report.{report_means};
ghost use Rattle.trail_reports.specs.Lines.{differential_of, line_report};
ghost use Rattle.trail_reports.specs.Totals.{sums_of, sheet_totals, with_report, SmallReport};

use charged_lines::ChargedLines;
use differential::{Differential, LineReport, Sixteenths};
use line_reports::report;
use sheet_fields::lines::{difference_at, line_at};
use sheet_fields::read_sheet::ReadSheet;
use trail_reports::Totals;
use units::in_sixteenths;

// Line k's differential.
pub fn differential_at(sheet: &ReadSheet, k: usize) -> Differential
    requires { k < sheet.now.header.lines }
    ensures { result ≡ differential_of (trail_of sheet.now.bytes.now) k }
{
    let line = line_at(sheet, k);
    let first = difference_at(sheet, line.first);
    let second = difference_at(sheet, line.second);
    Differential {
        width: sheet.header.width,
        line,
        first,
        second,
    }
}

// The report of line k.
pub fn report_at(sheet: &ReadSheet, k: usize) -> LineReport
    requires { k < sheet.now.header.lines }
    ensures { report_means result ≡ line_report (trail_of sheet.now.bytes.now) k }
{
    report(differential_at(sheet, k))
}

// The totals of all lines. One that costs something adds nothing if an equal line is charged already.
pub fn sum_reports(sheet: &ReadSheet) -> Totals
    ensures { sums_of result ≡ sheet_totals (trail_of sheet.now.bytes.now) }
{
    let lines = sheet.header.lines;
    let mut charged = ChargedLines::new();
    let mut sums = Totals {
        impossible: 0,
        weight: Sixteenths(0),
        chains: 0,
    };
    for k in 0..lines {
        let differential = differential_at(sheet, k);
        let line = differential.line;
        let report = report(differential);
        if !charged.holds(line, report) {
            charged.charge(line, report);
            let next = with_line(sums, report);
            sums = next;
        }
    }
    sums
}

// The totals with one line more.
fn with_line(sums: Totals, report: LineReport) -> Totals
    requires { (sums.impossible < 2 ^ 16) × (sums.weight.0 < 2 ^ 20) × (sums.chains < 2 ^ 20) × SmallReport (report_means report) }
    ensures { sums_of result ≡ with_report (sums_of sums) (report_means report) }
{
    let weight = sums.weight;
    match report {
        LineReport::Impossible => Totals {
            impossible: sums.impossible + 1,
            weight,
            chains: sums.chains,
        },
        LineReport::Certain => sums,
        LineReport::Halves(bits) => {
            let cost = in_sixteenths(bits);
            Totals {
                impossible: sums.impossible,
                weight: Sixteenths(weight.0 + cost.0),
                chains: sums.chains,
            }
        }
        LineReport::Counted(cost, chains, _) => Totals {
            impossible: sums.impossible,
            weight: Sixteenths(weight.0 + cost.0),
            chains: sums.chains + chains,
        },
    }
}
