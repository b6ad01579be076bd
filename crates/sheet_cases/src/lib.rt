// Cases of reading and sealing, run on `reading::read` and `sealing::seal`.
//
// A case is a line `NAME: LENGTH OFFSET=VALUE OFFSET=VALUE ..`: a sheet of LENGTH bytes, at most 65,536,
// all 0 but those listed. It is answered by a line, `NAME: read ANSWER; seal ANSWER OFFSET=VALUE ..`, that ends with the
// bytes that sealing changed.
#![tactic(auto)]

pub mod print;

ghost use Rattle.std.specs.Prelude.{◌≡◌, length};

use crate::print::{print_answer, print_changes};
use case_text::parse::{find, take_sheet};
use std::io;
use std::io::Write;

// The longest sheet of a case.
const SHEET_BYTES: usize = 65536;

// Answers one line: its name, and what its sheet comes to.
pub fn run_case(out: &mut impl Write, line: &[u8]) -> io::Result<()> {
    let colon = find(line, 0, b':');
    out.write_all(&line[0..colon])?;
    let mut sheet = [0u8; SHEET_BYTES];
    let length = take_sheet(&mut sheet, line, colon + 2);
    let before = sheet;
    run_sheet(out, &mut sheet[0..length], &before[0..length])
}

// Answers one sheet, given with a copy of its bytes.
fn run_sheet(out: &mut impl Write, sheet: &mut [u8], before: &[u8]) -> io::Result<()>
    requires { length before.now ≡ length sheet.old }
{
    print_answer(out, b": read", reading::read(sheet))?;
    print_sealing(out, b"; seal", sheet, before)?;
    writeln!(out)
}

// What sealing answers after a text, and the bytes that it changes. The sheet is given with a copy of its bytes.
pub fn print_sealing(
    out: &mut impl Write,
    text: &[u8],
    sheet: &mut [u8],
    before: &[u8],
) -> io::Result<()>
    requires { length before.now ≡ length sheet.old }
{
    print_answer(out, text, sealing::seal(sheet))?;
    print_changes(out, before, sheet)
}
