// What is told of a joined sheet, by the first letter of the case's name.
ghost use Rattle.std.specs.Prelude.{◌≤◌, length};

use crate::SHEET_BYTES;
use clause_cases::following::print_following;
use joining::join;
use report_cases::whole::{lines_of, print_lines};
use sheet_cases::print::print_changes;
use sheet_cases::print_sealing;
use std::io;
use std::io::Write;

// Joins two sheets, and tells of the joined one what the case asks for.
pub fn print_joined(
    out: &mut impl Write,
    case: &[u8],
    first: &[u8],
    second: &[u8],
    names: &[u64],
) -> io::Result<()> {
    if case.len() == 0 {
        return Ok(());
    }
    let letter = case[0];
    let zeros = [0u8; SHEET_BYTES];
    let mut sheet = zeros;
    let length = join_into(first, second, names, &mut sheet);
    match letter {
        b'b' => {
            write!(out, "\n  bytes")?;
            print_changes(out, &zeros[0..length], &sheet[0..length])
        }
        b'f' => {
            write!(out, "\n  two runs")?;
            print_following(out, &sheet[0..length])
        }
        b'r' => {
            let lines = lines_of(&sheet[0..length]);
            print_lines(out, &sheet[0..length], lines)
        }
        b's' => {
            let joined = sheet;
            print_sealing(out, b"\n  seal", &mut sheet[0..length], &joined[0..length])
        }
        _ => Ok(()),
    }
}

// Joins two sheets, and tells how long the joined one is; 0 where there is none.
fn join_into(first: &[u8], second: &[u8], names: &[u64], out: &mut [u8]) -> usize
    ensures { result ≤ length out.old }
{
    match join(first, second, names, out) {
        Ok(bytes) => {
            if out.len() < bytes {
                return 0;
            }
            bytes
        }
        Err(_) => 0,
    }
}
