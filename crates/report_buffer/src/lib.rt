// The report buffer of a sheet that was read: the reports of all lines, 16 bytes each (document 01, "Line reports").

#![tactic(auto)]

ghost use Rattle.std.specs.Prelude.{◌+◌, ◌≤◌, length};
ghost use Rattle.buffers.specs.Overwrite.{Wrote};
ghost use Rattle.sheet.specs.Fields.{trail_of};
ghost use Rattle.differential.specs.Report.{report_means};
ghost use Rattle.trail_reports.specs.Totals.{SmallReport};
ghost use Rattle.report_buffer.specs.Buffer.{report_size, field_bytes, report_bytes, sheet_bytes, bytes_needed};

use buffers::put_number;
use differential::LineReport;
use sheet_fields::read_sheet::ReadSheet;
use sheet_reports::report_at;
use units::in_sixteenths;

// The bytes of a line's report.
pub const REPORT_BYTES: usize = 16;

// Writes the reports of all lines of a sheet that was read, one behind the other. Returns the next position.
pub fn put_reports(sheet: &ReadSheet, out: &mut [u8]) -> usize
    requires { bytes_needed sheet.now.header.lines ≤ length out.old }
    ensures { Wrote 0 (sheet_bytes (trail_of sheet.now.bytes.now)) out.old result out.new }
{
    let mut next = 0;
    for k in 0..sheet.header.lines {
        next = put_report(out, next, report_at(sheet, k));
    }
    next
}

// Writes one report from a position on. Returns the next position.
pub fn put_report(out: &mut [u8], at: usize, report: LineReport) -> usize
    requires { (at + report_size ≤ length out.old) × SmallReport (report_means report) }
    ensures { Wrote at (report_bytes (report_means report)) out.old result out.new }
{
    match report {
        LineReport::Impossible => put_fields(out, at, 0, 0, 0, 0),
        LineReport::Certain => put_fields(out, at, 1, 0, 0, 0),
        LineReport::Halves(bits) => {
            let weight = in_sixteenths(bits);
            put_fields(out, at, 2, 0, weight.0, 0)
        }
        LineReport::Counted(weight, chains, fitting) => {
            put_fields(out, at, 3, chains, weight.0, fitting.0)
        }
    }
}

// Writes a report's number, a zero, its chains, its weight in sixteenths and N, each where the one before it ends.
fn put_fields(
    out: &mut [u8],
    at: usize,
    number: u32,
    chains: u32,
    weight: u32,
    fitting: u64,
) -> usize
    requires { at + report_size ≤ length out.old }
    ensures { Wrote at (field_bytes number chains weight fitting) out.old result out.new }
{
    let zero_at = put_number(out, at, 1, number as u64);
    let chains_at = put_number(out, zero_at, 1, 0);
    let weight_at = put_number(out, chains_at, 2, chains as u64);
    let fitting_at = put_number(out, weight_at, 4, weight as u64);
    put_number(out, fitting_at, 8, fitting)
}
