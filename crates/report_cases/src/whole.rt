// Whole sheets: every line's report, the totals, and the report buffer at three lengths.
ghost use Rattle.std.specs.Prelude.{◌≤◌};

use crate::rows::print_report;
use case_text::parse::take_sheet;
use case_text::print::{print_bytes, print_refused};
use report_buffer::REPORT_BYTES;
use std::io;
use std::io::Write;

// Room for a sheet, and for its report buffer.
const SHEET_BYTES: usize = 5120;

const BUFFER_BYTES: usize = 4096;

// Answers a case `LENGTH OFFSET=VALUE ..` on a sheet that is to be sealed first, or on one that is not.
pub fn run_sheet(out: &mut impl Write, line: &[u8], from: usize, sealing: bool) -> io::Result<()> {
    let mut sheet = [0u8; SHEET_BYTES];
    let length = take_sheet(&mut sheet, line, from);
    print_sealed(out, &mut sheet[0..length], sealing)
}

fn print_sealed(out: &mut impl Write, sheet: &mut [u8], sealing: bool) -> io::Result<()> {
    seal_if(sealing, sheet);
    print_sheet(out, sheet)
}

// Seals a sheet, or leaves it as it is, as sealing does where it refuses.
fn seal_if(sealing: bool, sheet: &mut [u8]) {
    if sealing {
        let _ = sealing::seal(sheet);
    }
}

// All answers on a sheet. A buffer one byte short of the need, one that just holds the reports, and a longer one.
fn print_sheet(out: &mut impl Write, sheet: &[u8]) -> io::Result<()> {
    let lines = lines_of(sheet);
    print_lines(out, sheet, lines)?;
    print_totals(out, sheet)?;
    let need = REPORT_BYTES * lines;
    if 0 < need {
        print_buffer(out, sheet, need - 1)?;
    }
    print_buffer(out, sheet, need)?;
    print_buffer(out, sheet, need + 5)
}

// The number of lines of an accepted sheet, else 0; more than a sheet can have are taken for the most.
pub fn lines_of(sheet: &[u8]) -> usize
    ensures { result ≤ 248 }
{
    match reading::read(sheet) {
        Ok(header) => {
            if header.lines <= 248 {
                return header.lines;
            }
            248
        }
        Err(_) => 0,
    }
}

// The reports of all lines, and of the line number after the last.
pub fn print_lines(out: &mut impl Write, sheet: &[u8], lines: usize) -> io::Result<()>
    requires { lines ≤ 248 }
{
    for k in 0..=lines {
        write!(out, "\n  line {k}")?;
        print_line(out, sheet, k)?;
    }
    Ok(())
}

// The answer of `report::line_report`.
fn print_line(out: &mut impl Write, sheet: &[u8], k: usize) -> io::Result<()> {
    match report::line_report(sheet, k) {
        Ok(report) => print_report(out, report),
        Err(refusal) => print_refused(out, refusal.number(), refusal.place()),
    }
}

// The answer of `report::sheet_totals`: ` IMPOSSIBLE WEIGHT CHAINS`, or a refusal.
fn print_totals(out: &mut impl Write, sheet: &[u8]) -> io::Result<()> {
    write!(out, "\n  totals")?;
    match report::sheet_totals(sheet) {
        Ok(totals) => {
            write!(
                out,
                " {} {} {}",
                totals.impossible, totals.weight.0, totals.chains
            )
        }
        Err(refusal) => print_refused(out, refusal.number(), refusal.place()),
    }
}

// What is answered for a buffer of a length. Before, each of its bytes is A5.
fn print_buffer(out: &mut impl Write, sheet: &[u8], length: usize) -> io::Result<()>
    requires { length ≤ 4096 }
{
    let mut buffer = [0xA5u8; BUFFER_BYTES];
    write!(out, "\n  buffer of {length}")?;
    print_reports(out, sheet, &mut buffer[0..length])
}

// The answer of `report::write_reports`, ` written BYTES` or a refusal, and the bytes of the buffer afterwards.
fn print_reports(out: &mut impl Write, sheet: &[u8], buffer: &mut [u8]) -> io::Result<()> {
    match report::write_reports(sheet, buffer) {
        Ok(bytes) => write!(out, " written {bytes}")?,
        Err(refusal) => print_refused(out, refusal.number(), refusal.place())?,
    }
    write!(out, " [")?;
    print_bytes(out, buffer)?;
    write!(out, "]")
}
