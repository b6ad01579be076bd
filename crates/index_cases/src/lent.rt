// Changes that are lent index and report, held against a copy that is changed and what is made afresh of it.
ghost use Rattle.std.specs.Prelude.{◌≡◌, length};

use crate::{MOST_NUMBERS, REPORT_ROOM};
use answers::Refusal;
use case_text::checksum::with_bytes;
use case_text::parse::number;
use change_cases::print_made;
use changing::change;
use changing_indexed::change_indexed;
use report::write_reports;
use sheet_cases::print::print_changes;
use std::io;
use std::io::Write;

// Makes one change after the other. Each tells where the next begins.
pub fn run_changes(
    out: &mut impl Write,
    line: &[u8],
    from: usize,
    sheet: &mut [u8],
    copy: &mut [u8],
    index: &[u16],
    report: &mut [u8],
) -> io::Result<()>
    requires { length copy.old ≡ length sheet.old }
{
    let mut next = from;
    while next < line.len() {
        let k = number(line, next);
        let difference = number(line, k.next);
        run_change(
            out,
            sheet,
            copy,
            index,
            report,
            k.value,
            difference.value as u64,
        )?;
        next = difference.next;
    }
    Ok(())
}

// Makes a change, of the copy as well where it is made.
fn run_change(
    out: &mut impl Write,
    sheet: &mut [u8],
    copy: &mut [u8],
    index: &[u16],
    report: &mut [u8],
    k: usize,
    difference: u64,
) -> io::Result<()>
    requires { length copy.old ≡ length sheet.old }
{
    let made = print_call(out, sheet, copy, index, report, k, difference)?;
    change_if(made, copy, k, difference);
    print_held(out, sheet, copy, index, report)
}

// Changes a sheet where a change was made.
fn change_if(made: Result<(), Refusal>, sheet: &mut [u8], k: usize, difference: u64) {
    if made.is_ok() {
        let _ = change(sheet, k, difference);
    }
}

// Makes one change, and holds it against a copy that has another.
pub fn run_claim(
    out: &mut impl Write,
    line: &[u8],
    from: usize,
    sheet: &mut [u8],
    copy: &mut [u8],
    index: &[u16],
    report: &mut [u8],
) -> io::Result<()>
    requires { length copy.old ≡ length sheet.old }
{
    let k = number(line, from);
    let difference = number(line, k.next);
    let other = number(line, difference.next);
    let stated = number(line, other.next);
    let _ = change(copy, other.value, stated.value as u64);
    print_claim(
        out,
        sheet,
        copy,
        index,
        report,
        k.value,
        difference.value as u64,
    )
}

// Makes a change of a sheet, and then of the copy, lent what the first call left.
fn print_claim(
    out: &mut impl Write,
    sheet: &mut [u8],
    copy: &mut [u8],
    index: &[u16],
    report: &mut [u8],
    k: usize,
    difference: u64,
) -> io::Result<()>
    requires { length copy.old ≡ length sheet.old }
{
    let _ = print_call(out, sheet, copy, index, report, k, difference)?;
    print_held(out, sheet, copy, index, report)?;
    let _ = print_call(out, copy, sheet, index, report, k, difference)?;
    Ok(())
}

// The answer of `changing_indexed::change_indexed`, the bytes that the sheet then has and another has not, and a checksum of the
// report.
fn print_call(
    out: &mut impl Write,
    sheet: &mut [u8],
    other: &[u8],
    index: &[u16],
    report: &mut [u8],
    k: usize,
    difference: u64,
) -> io::Result<Result<(), Refusal>>
    requires { length other.now ≡ length sheet.old }
{
    write!(out, "\n  line {k} to {difference}")?;
    let made = change_indexed(sheet, index, report, k, difference);
    print_made(out, made)?;
    print_changes(out, other, sheet)?;
    write!(out, ", report {}", with_bytes(0, report, 0))?;
    Ok(made)
}

// Whether the sheet is the copy, and index and report are those made afresh of it.
fn print_held(
    out: &mut impl Write,
    sheet: &[u8],
    copy: &[u8],
    index: &[u16],
    report: &[u8],
) -> io::Result<()> {
    write!(
        out,
        "; sheet {}, index {}, report {}",
        same_or_other(sheet == copy),
        same_or_other(is_index_of(copy, index)),
        same_or_other(is_report_of(copy, report))
    )
}

// What a comparison comes to.
fn same_or_other(is_same: bool) -> &'static str {
    if is_same { "same" } else { "other" }
}

// Whether an index is that of a sheet. A sheet that is refused has none.
fn is_index_of(sheet: &[u8], index: &[u16]) -> bool {
    let mut fresh = [0u16; MOST_NUMBERS];
    match indexing::index(sheet, &mut fresh) {
        Ok(count) => {
            if MOST_NUMBERS < count {
                return false;
            }
            index == &fresh[0..count]
        }
        Err(_) => false,
    }
}

// Whether a report buffer is that of a sheet. A sheet that is refused has none.
fn is_report_of(sheet: &[u8], report: &[u8]) -> bool {
    let mut fresh = [0u8; REPORT_ROOM];
    match write_reports(sheet, &mut fresh) {
        Ok(bytes) => {
            if REPORT_ROOM < bytes {
                return false;
            }
            report == &fresh[0..bytes]
        }
        Err(_) => false,
    }
}
