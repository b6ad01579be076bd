// What reading and sealing answer, as text.
ghost use Rattle.std.specs.Prelude.{◌≡◌, length};

use answers::Refusal;
use case_text::print::print_refused;
use sheet::Header;
use std::io;
use std::io::Write;

// An answer of reading or sealing after a text: ` accepted BLOCKS WIDTH INPUTS LINES` or ` refused NUMBER PLACE`.
pub fn print_answer(
    out: &mut impl Write,
    before: &[u8],
    answer: Result<Header, Refusal>,
) -> io::Result<()> {
    out.write_all(before)?;
    match answer {
        Ok(header) => write!(
            out,
            " accepted {} {} {} {}",
            header.blocks, header.width, header.inputs, header.lines
        ),
        Err(refusal) => print_refused(out, refusal.number(), refusal.place()),
    }
}

// Every byte that changed, with its offset, as ` OFFSET=VALUE`.
pub fn print_changes(out: &mut impl Write, before: &[u8], after: &[u8]) -> io::Result<()>
    requires { length before.now ≡ length after.now }
{
    for i in 0..after.len() {
        print_change(out, i, before[i], after[i])?;
    }
    Ok(())
}

// The byte at an offset, if it changed.
fn print_change(out: &mut impl Write, offset: usize, before: u8, after: u8) -> io::Result<()> {
    if before != after {
        write!(out, " {offset}={after}")?;
    }
    Ok(())
}
