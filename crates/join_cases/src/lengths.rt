// What joining answers for buffers of three lengths, and leaves in them.
ghost use Rattle.std.specs.Prelude.{◌≤◌};

use case_text::checksum::with_bytes;
use case_text::print::{print_bytes, print_refused};
use joining::join;
use std::io;
use std::io::Write;

// Room for a buffer, and the most bytes that a case asks for: its longest buffer has six more.
const BUFFER_BYTES: usize = 5632;

const MOST_BYTES: usize = 5626;

// A buffer of a length, one that is a byte longer, and one that is six bytes longer.
pub fn print_buffers(
    out: &mut impl Write,
    first: &[u8],
    second: &[u8],
    names: &[u64],
    length: usize,
) -> io::Result<()> {
    if MOST_BYTES < length {
        return write!(out, " too long");
    }
    print_buffer(out, first, second, names, length)?;
    print_buffer(out, first, second, names, length + 1)?;
    print_buffer(out, first, second, names, length + 6)
}

// What is answered for a buffer of a length. Before, each of its bytes is A5.
fn print_buffer(
    out: &mut impl Write,
    first: &[u8],
    second: &[u8],
    names: &[u64],
    length: usize,
) -> io::Result<()>
    requires { length ≤ 5632 }
{
    let mut buffer = [0xA5u8; BUFFER_BYTES];
    write!(out, "\n  buffer of {length}")?;
    print_join(out, first, second, names, &mut buffer[0..length])
}

// The answer of `joining::join`, ` written BYTES` with the bytes after them, or a refusal; and a checksum of what it changed, 0 where
// it changed nothing.
fn print_join(
    out: &mut impl Write,
    first: &[u8],
    second: &[u8],
    names: &[u64],
    buffer: &mut [u8],
) -> io::Result<()> {
    match join(first, second, names, buffer) {
        Ok(bytes) => {
            write!(out, " written {bytes}")?;
            print_rest(out, buffer, bytes)?;
        }
        Err(refusal) => print_refused(out, refusal.number(), refusal.place())?,
    }
    write!(out, ", checksum {}", with_bytes(0, buffer, 0xA5))
}

// The bytes from a position on.
fn print_rest(out: &mut impl Write, buffer: &[u8], from: usize) -> io::Result<()> {
    if from <= buffer.len() {
        write!(out, ", rest [")?;
        print_bytes(out, &buffer[from..])?;
        write!(out, "]")?;
    }
    Ok(())
}
