// One line's list, in buffers of three lengths.
ghost use Rattle.std.specs.Prelude.{◌≤◌};

use crate::SHEET_BYTES;
use crate::print::print_numbers;
use case_text::parse::{number, take_sheet};
use case_text::print::print_refused;
use clauses::line_list;
use std::io;
use std::io::Write;

// The longest list of a case; the most of any list is 4,944.
const MOST_NUMBERS: usize = 1024;
// Room for it, and three numbers more.
const BUFFER_NUMBERS: usize = 1027;

// Answers a case `K SHEET`.
pub fn run_list(out: &mut impl Write, line: &[u8], from: usize) -> io::Result<()> {
    let k = number(line, from);
    let mut sheet = [0u8; SHEET_BYTES];
    let length = take_sheet(&mut sheet, line, k.next);
    print_lists(out, &sheet[0..length], k.value)
}

// A buffer one number short of the need, one that just holds the list, and a longer one.
fn print_lists(out: &mut impl Write, sheet: &[u8], k: usize) -> io::Result<()> {
    let need = need_of(sheet, k);
    if 0 < need {
        print_buffer(out, sheet, k, need - 1)?;
    }
    print_buffer(out, sheet, k, need)?;
    print_buffer(out, sheet, k, need + 3)
}

// How many numbers the list of line k has; 0 where there is none.
fn need_of(sheet: &[u8], k: usize) -> usize
    ensures { result ≤ 1024 }
{
    let mut buffer = [0i32; MOST_NUMBERS];
    match line_list(sheet, k, &mut buffer) {
        Ok(numbers) => {
            if MOST_NUMBERS < numbers {
                return MOST_NUMBERS;
            }
            numbers
        }
        Err(_) => 0,
    }
}

// What is answered for a buffer of a length. Before, each of its numbers is 7.
fn print_buffer(out: &mut impl Write, sheet: &[u8], k: usize, length: usize) -> io::Result<()>
    requires { length ≤ 1027 }
{
    let mut buffer = [7i32; BUFFER_NUMBERS];
    write!(out, "\n  buffer of {length}")?;
    print_list(out, sheet, k, &mut buffer[0..length])
}

// The answer of `clauses::line_list`, ` written NUMBERS` or a refusal, and the numbers of the buffer afterwards.
fn print_list(out: &mut impl Write, sheet: &[u8], k: usize, buffer: &mut [i32]) -> io::Result<()> {
    match line_list(sheet, k, buffer) {
        Ok(numbers) => write!(out, " written {numbers}")?,
        Err(refusal) => print_refused(out, refusal.number(), refusal.place())?,
    }
    write!(out, ":")?;
    print_numbers(out, buffer)
}
