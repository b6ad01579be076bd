// Cases of a list of changes in one call, run on `changing_all::change_all` (document 02, W-207).
//
// A case is a line `NAME: SHEET; ROOM COUNT NUMBER NUMBER ..`. The sheet is given as `LENGTH OFFSET=VALUE ..`: LENGTH bytes, all 0
// but those listed. The list has COUNT numbers; those that the line does not have are 0. It is applied with reply buffers of ROOM,
// ROOM + 1 and ROOM + 6 bytes, each time to the sheet as it is given, and held against a copy that is changed once for each pair.
// Where a second list follows, `COUNT NUMBER ..`, the copy has the changes of that one.
#![tactic(auto)]

mod replies;

ghost use Rattle.std.specs.Prelude.{◌≤◌, length};

use crate::replies::print_buffers;
use case_text::parse::{Numeral, find, number, take_sheet, take_words};
use std::io;
use std::io::Write;

// Room for the sheet of a case, one block more than any sheet has, and for a list.
const SHEET_BYTES: usize = 5120;

const MOST_NUMBERS: usize = 640;

// Answers one line: its name, and what it comes to.
pub fn run_case(out: &mut impl Write, line: &[u8]) -> io::Result<()> {
    let colon = find(line, 0, b':');
    out.write_all(&line[0..colon])?;
    write!(out, ":")?;
    take_case(out, line, colon)?;
    writeln!(out)
}

// Answers a case whose name ends at the colon.
fn take_case(out: &mut impl Write, line: &[u8], colon: usize) -> io::Result<()>
    requires { colon ≤ length line.now }
{
    let semicolon = find(line, colon, b';');
    let mut sheet = [0u8; SHEET_BYTES];
    let size = take_sheet(&mut sheet, &line[0..semicolon], colon + 2);
    take_lists(out, line, semicolon + 2, sheet, size)
}

// Answers a case of a sheet. The length of its buffers and its lists start at `from`.
fn take_lists(
    out: &mut impl Write,
    line: &[u8],
    from: usize,
    sheet: [u8; SHEET_BYTES],
    size: usize,
) -> io::Result<()>
    requires { size ≤ 5120 }
{
    let buffer = number(line, from);
    let mut pairs = [0u64; MOST_NUMBERS];
    let list = take_list(&mut pairs, line, buffer.next);
    let mut others = pairs;
    let held = take_second(&mut others, line, list);
    let count = list.value;
    print_buffers(
        out,
        sheet,
        size,
        &pairs[0..count],
        &others[0..held],
        buffer.value,
    )
}

// Takes the list whose count stands at `from`, and tells the count and the position after it. One that is too long is left out.
fn take_list(numbers: &mut [u64], line: &[u8], from: usize) -> Numeral
    ensures { result.value ≤ length numbers.old }
{
    let size = number(line, from);
    let count = size.value;
    if numbers.len() < count {
        return Numeral {
            value: 0,
            next: size.next,
        };
    }
    let next = take_words(&mut numbers[0..count], line, size.next);
    Numeral { value: count, next }
}

// Takes the list that follows another over the numbers of that one, and tells its count; where none follows, the count of the other.
fn take_second(numbers: &mut [u64], line: &[u8], list: Numeral) -> usize
    requires { list.value ≤ length numbers.old }
    ensures { result ≤ length numbers.old }
{
    if list.next < line.len() {
        let second = take_list(numbers, line, list.next);
        return second.value;
    }
    list.value
}
