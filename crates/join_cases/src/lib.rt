// Cases of joining, run on `joining::join`.
//
// A case is a line `NAME: SHEET + SHEET; COUNT WORD WORD .. LENGTH`. A sheet is given as `LENGTH OFFSET=VALUE ..`: LENGTH bytes, all
// 0 but those listed. The two are joined by a list of COUNT words, in buffers of about LENGTH bytes. The name's first letter says
// what is told of the joined sheet besides:
// - `bytes ..`, its bytes that are not 0;
// - `following ..`, how many starting values follow;
// - `reports ..`, the reports of its lines;
// - `sealing ..`, what sealing it afresh answers, and the bytes that this changes;
// - any other, nothing.
#![tactic(auto)]

mod joined;
mod lengths;

ghost use Rattle.std.specs.Prelude.{◌≤◌, length};

use crate::joined::print_joined;
use crate::lengths::print_buffers;
use case_text::parse::{find, number, take_sheet, take_words};
use std::io;
use std::io::Write;

// Room for a sheet of a case, and for its list of words.
const SHEET_BYTES: usize = 5120;

const MOST_WORDS: usize = 16;

// Answers one line: its name, and what it comes to.
pub fn run_case(out: &mut impl Write, line: &[u8]) -> io::Result<()> {
    let colon = find(line, 0, b':');
    out.write_all(&line[0..colon])?;
    write!(out, ":")?;
    take_case(out, line, colon)?;
    writeln!(out)
}

// Answers a case whose name ends at the colon.
fn take_case(out: &mut impl Write, line: &[u8], colon: usize) -> io::Result<()>
    requires { colon ≤ length line.now }
{
    let plus = find(line, colon, b'+');
    let semicolon = find(line, colon, b';');
    let mut first = [0u8; SHEET_BYTES];
    let first_length = take_sheet(&mut first, &line[0..plus], colon + 2);
    let mut second = [0u8; SHEET_BYTES];
    let second_length = take_sheet(&mut second, &line[0..semicolon], plus + 2);
    take_list(
        out,
        line,
        semicolon + 2,
        &first[0..first_length],
        &second[0..second_length],
    )
}

// Answers a case of two sheets. Its list starts at `from`.
fn take_list(
    out: &mut impl Write,
    line: &[u8],
    from: usize,
    first: &[u8],
    second: &[u8],
) -> io::Result<()> {
    let size = number(line, from);
    let count = size.value;
    if MOST_WORDS < count {
        return write!(out, " too many");
    }
    let mut names = [0u64; MOST_WORDS];
    print_case(out, line, size.next, first, second, &mut names[0..count])
}

// What is answered for as many words as there is room for, and the length after them.
fn print_case(
    out: &mut impl Write,
    line: &[u8],
    from: usize,
    first: &[u8],
    second: &[u8],
    names: &mut [u64],
) -> io::Result<()> {
    let next = take_words(names, line, from);
    let length = number(line, next);
    print_buffers(out, first, second, names, length.value)?;
    print_joined(out, line, first, second, names)
}
