// What making an index answers for buffers of three lengths, and leaves in them.
ghost use Rattle.std.specs.Prelude.{◌≤◌};

use crate::MOST_NUMBERS;
use case_text::print::print_refused;
use std::io;
use std::io::Write;

// The most numbers that a case asks for: its longest buffer has four more.
const MOST_LENT: usize = 764;

// A buffer of a length, one that is a number longer, and one that is four numbers longer.
pub fn print_buffers(out: &mut impl Write, sheet: &[u8], room: usize) -> io::Result<()> {
    if MOST_LENT < room {
        return write!(out, " too long");
    }
    print_buffer(out, sheet, room)?;
    print_buffer(out, sheet, room + 1)?;
    print_buffer(out, sheet, room + 4)
}

// What is answered for a buffer of a length. Before, each of its numbers is 999.
fn print_buffer(out: &mut impl Write, sheet: &[u8], room: usize) -> io::Result<()>
    requires { room ≤ 768 }
{
    let mut buffer = [999u16; MOST_NUMBERS];
    write!(out, "\n  buffer of {room}")?;
    print_index(out, sheet, &mut buffer[0..room])
}

// The answer of `indexing::index`, ` written NUMBERS` or a refusal, and the numbers of the buffer afterwards.
fn print_index(out: &mut impl Write, sheet: &[u8], buffer: &mut [u16]) -> io::Result<()> {
    match indexing::index(sheet, buffer) {
        Ok(numbers) => write!(out, " written {numbers}")?,
        Err(refusal) => print_refused(out, refusal.number(), refusal.place())?,
    }
    write!(out, ":")?;
    print_numbers(out, buffer)
}

// Numbers, each after a space.
fn print_numbers(out: &mut impl Write, numbers: &[u16]) -> io::Result<()> {
    for number in numbers {
        write!(out, " {number}")?;
    }
    Ok(())
}
