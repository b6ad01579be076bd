// A line's record.
ghost use Rattle.std.specs.Prelude.{◌++◌, ◌+◌, ◌≤◌, length};
ghost use Rattle.buffers.specs.Overwrite.{Wrote};
ghost use Rattle.buffers.specs.LittleEndian.{bytes_of};
ghost use Rattle.sheet.specs.Form.{record_bytes};
ghost use Rattle.sheet_encoding.specs.Encoding.{record_bytes_of};

use crate::put_zeros;
use buffers::put_number;
use sheet::Form;
use sheet_fields::sizes::{record_bytes, word_bytes};
use trail::Line;

// Writes what stands before a record's constant, from a position on: kind, amount, operands and the zero field. Returns the next
// position.
fn put_operands(out: &mut [u8], at: usize, line: Line) -> usize
    requires { at + 8 ≤ length out.old }
    ensures { Wrote at (bytes_of 1 line.kind ++ (bytes_of 1 line.amount ++ (bytes_of 2 line.first
        ++ (bytes_of 2 line.second ++ bytes_of 2 0)))) out.old result out.new }
{
    let amount_at = put_number(out, at, 1, line.kind as u64);
    let first_at = put_number(out, amount_at, 1, line.amount as u64);
    let second_at = put_number(out, first_at, 2, line.first as u64);
    let zero_at = put_number(out, second_at, 2, line.second as u64);
    put_number(out, zero_at, 2, 0)
}

// Writes a line's record from a position on: its fields, and zeros up to its size. Returns the next position.
pub fn put_record(out: &mut [u8], at: usize, form: Form, line: Line) -> usize
    requires { at + record_bytes form ≤ length out.old }
    ensures { Wrote at (record_bytes_of form line) out.old result out.new }
{
    let word = word_bytes(form);
    let constant_at = put_operands(out, at, line);
    let difference_at = put_number(out, constant_at, word, line.constant);
    let rest_at = put_number(out, difference_at, word, line.difference);
    put_zeros(out, rest_at, record_bytes(form) - (8 + 2 * word))
}
