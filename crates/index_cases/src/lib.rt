// Cases of a sheet's index, and of a change that is lent index and report, run on `indexing::index` and
// `changing_indexed::change_indexed` (document 02, W-208).
//
// A sheet is given as `LENGTH OFFSET=VALUE ..`: LENGTH bytes, all 0 but those listed; a report buffer likewise. The name's first
// letter says what a case is:
// - `index ..: SHEET + LENGTH`, the index, in buffers of LENGTH, LENGTH + 1 and LENGTH + 4 numbers;
// - `renewing ..: SHEET + REPORT; COUNT NUMBER NUMBER .. LINE DIFFERENCE LINE DIFFERENCE ..`, changes that are made one after the
//   other, each lent the report and the index of COUNT numbers. Sheet, index and report are held against a copy that is changed by
//   `changing::change`, and what is made afresh of it;
// - `claim ..`, the same of two changes: the first is made, and held against a copy that has the second. Then the first is made of
//   the copy, lent the same.
#![tactic(auto)]

mod indexes;
mod lent;

ghost use Rattle.std.specs.Prelude.{◌≡◌, ◌≤◌, ◌<◌, length};

use crate::indexes::print_buffers;
use crate::lent::{run_changes, run_claim};
use case_text::parse::{find, number, take_sheet};
use std::io;
use std::io::Write;

// Room for the sheet of a case, one block more than any sheet has, for its report buffer, and for an index.
const SHEET_BYTES: usize = 5120;

const REPORT_ROOM: usize = 4096;

const MOST_NUMBERS: usize = 768;

// Answers one line: its name, and what it comes to.
pub fn run_case(out: &mut impl Write, line: &[u8]) -> io::Result<()> {
    let colon = find(line, 0, b':');
    out.write_all(&line[0..colon])?;
    write!(out, ":")?;
    take_case(out, line, colon)?;
    writeln!(out)
}

// Answers a case whose name ends at the colon.
fn take_case(out: &mut impl Write, line: &[u8], colon: usize) -> io::Result<()>
    requires { colon ≤ length line.now }
{
    let plus = find(line, colon, b'+');
    let mut sheet = [0u8; SHEET_BYTES];
    let size = take_sheet(&mut sheet, &line[0..plus], colon + 2);
    if line.len() == 0 {
        return Ok(());
    }
    if line[0] == b'i' {
        let room = number(line, plus + 2);
        return print_buffers(out, &sheet[0..size], room.value);
    }
    take_report(out, line, plus, sheet, size)
}

// Answers a case of a sheet that is lent a report and an index. They stand after the plus.
fn take_report(
    out: &mut impl Write,
    line: &[u8],
    plus: usize,
    sheet: [u8; SHEET_BYTES],
    size: usize,
) -> io::Result<()>
    requires { (0 < length line.now) × (plus ≤ length line.now) × (size ≤ 5120) }
{
    let semicolon = find(line, plus, b';');
    let mut report = [0u8; REPORT_ROOM];
    let bytes = take_sheet(&mut report, &line[0..semicolon], plus + 2);
    let mut changed = sheet;
    let mut copy = sheet;
    take_index(
        out,
        line,
        semicolon + 2,
        &mut changed[0..size],
        &mut copy[0..size],
        &mut report[0..bytes],
    )
}

// Answers a case of a sheet, which is given with its copy, and a report. The index and the changes start at `from`.
fn take_index(
    out: &mut impl Write,
    line: &[u8],
    from: usize,
    sheet: &mut [u8],
    copy: &mut [u8],
    report: &mut [u8],
) -> io::Result<()>
    requires { (0 < length line.now) × (length copy.old ≡ length sheet.old) }
{
    let size = number(line, from);
    let count = size.value;
    if MOST_NUMBERS < count {
        return write!(out, " too many");
    }
    let mut index = [0u16; MOST_NUMBERS];
    run_listed(
        out,
        line,
        size.next,
        sheet,
        copy,
        &mut index[0..count],
        report,
    )
}

// Makes the changes of a case that has as many numbers of an index as there is room for, and its changes after them.
fn run_listed(
    out: &mut impl Write,
    line: &[u8],
    from: usize,
    sheet: &mut [u8],
    copy: &mut [u8],
    index: &mut [u16],
    report: &mut [u8],
) -> io::Result<()>
    requires { (0 < length line.now) × (length copy.old ≡ length sheet.old) }
{
    let next = take_numbers(index, line, from);
    if line[0] == b'c' {
        return run_claim(out, line, next, sheet, copy, index, report);
    }
    run_changes(out, line, next, sheet, copy, index, report)
}

// Fills an index with the numbers of a line, and tells the position after them.
fn take_numbers(index: &mut [u16], line: &[u8], from: usize) -> usize {
    let mut next = from;
    for j in 0..index.len() {
        let word = number(line, next);
        index[j] = (word.value % 65536) as u16;
        next = word.next;
    }
    next
}
