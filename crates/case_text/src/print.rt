// Answers, written piece by piece as they are made. Where a writer tells what it holds, what was written stands behind that.
ghost use Rattle.std.specs.Prelude.{◌++◌, OnOk, codes, decimal};
ghost use Rattle.std.specs.Io.KnownBytes.{Appends};
ghost use Rattle.case_text.specs.Hexadecimal.{hexadecimal};

use std::io;
use std::io::Write;

// A refusal: ` refused NUMBER PLACE`.
pub fn print_refused<W: Write>(out: &mut W, number: u32, place: u64) -> io::Result<()>
    ensures { OnOk result (Appends (W.contents out.old) (W.contents out.new)
        (codes " refused " ++ (decimal number ++ (codes " " ++ decimal place)))) }
{
    write!(out, " refused {number} {place}")
}

// Bytes in hexadecimal, two digits each.
pub fn print_bytes<W: Write>(out: &mut W, bytes: &[u8]) -> io::Result<()>
    ensures { OnOk result (Appends (W.contents out.old) (W.contents out.new) (hexadecimal bytes.now)) }
{
    for byte in bytes {
        write!(out, "{byte:02x}")?;
    }
    Ok(())
}
