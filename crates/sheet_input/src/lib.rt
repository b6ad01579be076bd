// Reading a sheet's bytes.
#![tactic(auto)]

ghost use Rattle.std.specs.Prelude.{length};
ghost use Rattle.sheet_input.specs.Input.{Within, ReadsFront};

use std::io;
use std::io::Read;

// Reads until the buffer is full or the input ends, and tells how many bytes were read. A read that fails is no end: what came before
// it may be a whole sheet by chance.
pub fn read_input<R: Read>(input: &mut R, buffer: &mut [u8]) -> io::Result<usize>
    ensures within { Within (length buffer.new) result }
    ensures front { ReadsFront (R.remaining input.old) (R.remaining input.new) result buffer.new }
{
    let mut end = 0;
    // How far a turn goes is known only when the read has been made.
    while end < buffer.len() {
        let more = input.read(&mut buffer[end..])?;
        if more == 0 {
            break;
        }
        end += more;
    }
    Ok(end)
}
