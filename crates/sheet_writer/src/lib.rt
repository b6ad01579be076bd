// Writes a trail as a sheet's bytes, piece by piece, each where the one before it ends; the checks come last, by `sealing`
// (document 01, "The sheet").

#![tactic(auto)]

pub mod header;
pub mod records;

ghost use Rattle.std.specs.Prelude.{◌≡◌, ◌+◌, ◌≤◌, length, replicate};
ghost use Rattle.buffers.specs.Overwrite.{Wrote};
ghost use Rattle.sheet.specs.Questions.{line_blocks};

use sheet::Form;
use sheet_fields::sizes::records_in_block;

// Writes zeros from a position on. Returns the next position.
pub fn put_zeros(out: &mut [u8], at: usize, count: usize) -> usize
    requires { at + count ≤ length out.old }
    ensures { Wrote at (replicate count 0) out.old result out.new }
{
    out[at..at + count].fill(0);
    at + count
}

// As many line blocks as the lines need.
pub fn line_blocks(form: Form, lines: usize) -> usize
    requires { lines ≤ 248 }
    ensures { result ≡ line_blocks form lines }
{
    let records = records_in_block(form);
    (lines + (records - 1)) / records
}
