// Question 26, of an index and a report that are lent beside a sheet that was read (document 02, W-208): whether each is the sheet's own
// at its exact length. Its own is made and compared, so comparing a report costs a report. The library's `==` compares
// many numbers by one instruction.

#![tactic(auto)]

ghost use Rattle.std.specs.Prelude.{◌≡◌, ◌&&◌};
ghost use Rattle.sheet.specs.Fields.{trail_of};
ghost use Rattle.report_buffer.specs.Buffer.{sheet_bytes};
ghost use Rattle.sheet_indexes.specs.Index.{index_of};
ghost use Rattle.indexed_changes.specs.IndexedCall.{is_own};

use index_writer::{INDEX_NUMBERS, WORDS, index_starts, put_index};
use report_buffer::{REPORT_BYTES, put_reports};
use sheet_fields::read_sheet::ReadSheet;

// The bytes of the longest sheet's report: 16 for each of 248 lines.
const LONGEST_REPORT: usize = 3968;

// Whether both are the sheet's own. The report is made only where the index is.
pub fn are_own(sheet: &ReadSheet, index: &[u16], report: &[u8]) -> bool
    ensures { result ≡ (is_own (index_of (trail_of sheet.now.bytes.now)) index.now
        && is_own (sheet_bytes (trail_of sheet.now.bytes.now)) report.now) }
{
    is_own_index(sheet, index) && is_own_report(sheet, report)
}

// Whether the index is the sheet's own.
fn is_own_index(sheet: &ReadSheet, index: &[u16]) -> bool
    ensures { result ≡ is_own (index_of (trail_of sheet.now.bytes.now)) index.now }
{
    let mut starts = [0u16; WORDS];
    let need = index_starts(sheet, &mut starts);
    if index.len() != need {
        return false;
    }
    let mut own = [0u16; INDEX_NUMBERS];
    let end = put_index(sheet, &mut starts, &mut own);
    index == &own[..end]
}

// Whether the report is the sheet's own.
fn is_own_report(sheet: &ReadSheet, report: &[u8]) -> bool
    ensures { result ≡ is_own (sheet_bytes (trail_of sheet.now.bytes.now)) report.now }
{
    let need = REPORT_BYTES * sheet.header.lines;
    if report.len() != need {
        return false;
    }
    let mut own = [0u8; LONGEST_REPORT];
    let end = put_reports(sheet, &mut own);
    report == &own[..end]
}
