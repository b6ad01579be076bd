// Of a sheet that was read: its report as text, part by part (document 01, "The programs").

#![tactic(auto)]

ghost use Rattle.std.specs.Prelude.{◌≡◌, [], ◌∷◌, ◌++◌, ◌+◌, ◌≤◌, length};
ghost use Rattle.buffers.specs.Overwrite.{Wrote};
ghost use Rattle.decimal.specs.Decimal.{behind};
ghost use Rattle.sheet.specs.Fields.{trail_of};
ghost use Rattle.differential.specs.Report.{report_means};
ghost use Rattle.trail_reports.specs.Totals.{SmallReport, sums_of};
ghost use Rattle.text_parts.specs.Parts.{part_means, room_call};
ghost use Rattle.report_file.specs.Text.{line_text, totals_text};
ghost use Rattle.report_file.specs.Parts.{report_part, most_bytes};

use answers::Refusal;
use decimal::{put_decimal, put_line};
use differential::LineReport;
use sheet_fields::read_sheet::ReadSheet;
use sheet_reports::{report_at, sum_reports};
use text_parts::put_part;
use trail_reports::Totals;
use units::in_sixteenths;

// Enough for any part.
const PART_BYTES: usize = 64;

// Writes a part of the report where there is room for it. The part is made aside, in as many bytes as no part passes.
pub fn write_part(sheet: &ReadSheet, part: usize, out: &mut [u8]) -> Result<usize, Refusal>
    requires { part ≤ sheet.now.header.lines }
    ensures { (part_means result ≡ (room_call (report_part (trail_of sheet.now.bytes.now) part) out.old).answer)
        × (out.new ≡ (room_call (report_part (trail_of sheet.now.bytes.now) part) out.old).buffer) }
{
    let mut text = [0u8; PART_BYTES];
    let bytes = put_report_part(sheet, part, &mut text);
    put_part(out, &text[0..bytes])
}

// Writes a part of the report from the buffer's start: line `part`, or behind the last line the totals.
fn put_report_part(sheet: &ReadSheet, part: usize, out: &mut [u8]) -> usize
    requires { (part ≤ sheet.now.header.lines) × (most_bytes ≤ length out.old) }
    ensures { Wrote 0 (report_part (trail_of sheet.now.bytes.now) part) out.old result out.new }
{
    if part < sheet.header.lines {
        return put_report(out, part, report_at(sheet, part));
    }
    put_totals(out, sum_reports(sheet))
}

// Writes the line of a report: its number and name, its weight in sixteenths, its chains and N.
fn put_report(out: &mut [u8], k: usize, report: LineReport) -> usize
    requires { (length (line_text k (report_means report)) ≤ length out.old) × SmallReport (report_means report) }
    ensures { Wrote 0 (line_text k (report_means report)) out.old result out.new }
{
    let named = put_decimal(out, 0, k as u64);
    match report {
        LineReport::Impossible => put_fields(out, named, b" impossible", 0, 0, 0),
        LineReport::Certain => put_fields(out, named, b" certain", 0, 0, 0),
        LineReport::Halves(bits) => {
            let weight = in_sixteenths(bits);
            put_fields(out, named, b" halves", weight.0, 0, 0)
        }
        LineReport::Counted(weight, chains, fitting) => {
            put_fields(out, named, b" counted", weight.0, chains, fitting.0)
        }
    }
}

// Writes a report's name with the blank before it, then its weight in sixteenths, its chains and N.
fn put_fields(
    out: &mut [u8],
    at: usize,
    name: &[u8],
    weight: u32,
    chains: u32,
    fitting: u64,
) -> usize
    requires { at + length (name.now ++ behind (weight ∷ chains ∷ fitting ∷ [])) ≤ length out.old }
    ensures { Wrote at (name.now ++ behind (weight ∷ chains ∷ fitting ∷ [])) out.old result out.new }
{
    put_line(out, at, name, &[weight as u64, chains as u64, fitting])
}

// Writes the totals: the impossible lines, the weight in sixteenths and the chains.
fn put_totals(out: &mut [u8], totals: Totals) -> usize
    requires { length (totals_text (sums_of totals)) ≤ length out.old }
    ensures { Wrote 0 (totals_text (sums_of totals)) out.old result out.new }
{
    put_line(
        out,
        0,
        b"total",
        &[
            totals.impossible as u64,
            totals.weight.0 as u64,
            totals.chains as u64,
        ],
    )
}
