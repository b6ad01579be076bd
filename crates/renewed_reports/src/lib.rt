// A report renewed after a change (document 02, W-208): the reports of the changed line and of the lines that the index names as users of
// its word are written anew, and no others.

#![tactic(auto)]

ghost use Rattle.std.specs.Prelude.{◌≡◌, ℕ, ◌<◌, ◌≤◌, length};
ghost use Rattle.sheet.specs.Fields.{trail_of};
ghost use Rattle.report_buffer.specs.Buffer.{bytes_needed};
ghost use Rattle.sheet_indexes.specs.Index.{index_of, most_numbers};
ghost use Rattle.indexed_changes.specs.Renewed.{with_report, renewed};
ghost use Rattle.renewed_reports.specs.Walking.{part_at};

use report_buffer::{REPORT_BYTES, put_report};
use sheet_fields::read_sheet::ReadSheet;
use sheet_reports::report_at;

// Renews the report of a sheet in which line k was changed, by the sheet's own index.
pub fn renew_reports(sheet: &ReadSheet, index: &[u16], k: usize, report: &mut [u8])
    requires { (k < sheet.now.header.lines) × (index.now ≡ index_of (trail_of sheet.now.bytes.now))
        × (length report.old ≡ bytes_needed sheet.now.header.lines) }
    ensures { report.new ≡ renewed (trail_of sheet.now.bytes.now) k report.old }
{
    renew_report(sheet, k, report);
    let at = part_position(index, sheet.header.inputs + k);
    let users = index[at] as usize;
    for line in &index[at + 1..at + 1 + users] {
        renew_report(sheet, *line as usize, report);
    }
}

// Writes line i's report anew, where it stands.
fn renew_report(sheet: &ReadSheet, i: usize, report: &mut [u8])
    requires { (i < sheet.now.header.lines) × (length report.old ≡ bytes_needed sheet.now.header.lines) }
    ensures { report.new ≡ with_report (trail_of sheet.now.bytes.now) i report.old }
{
    put_report(report, REPORT_BYTES * i, report_at(sheet, i));
}

// The position of a word's part in an index.
fn part_position(index: &[u16], word: usize) -> usize
    requires { (length index.now ≤ most_numbers) × ((j : ℕ) → j ≤ word → part_at index.now j < length index.now) }
    ensures { result ≡ part_at index.now word }
{
    let mut at = 0;
    for _ in 0..word {
        at += 1 + index[at] as usize;
    }
    at
}
