// Block 0 of a sheet that has the width and the inputs of another, and a number of lines of its own.
ghost use Rattle.std.specs.Prelude.{◌≡◌, ◌+◌, ◌*◌, ◌≤◌, length, get_or};
ghost use Rattle.words.specs.Below.{concat};
ghost use Rattle.buffers.specs.Overwrite.{Wrote};
ghost use Rattle.buffers.specs.LittleEndian.{bytes_of};
ghost use Rattle.trail.specs.Trail.{Trail, line_count};
ghost use Rattle.sheet.specs.Form.{mark_of, word_bytes};
ghost use Rattle.sheet.specs.Fields.{trail_of};
ghost use Rattle.sheet_encoding.specs.Encoding.{header_block};

use crate::put_zeros;
use buffers::put_number;
use sheet::Form;
use sheet_fields::lines::difference_at;
use sheet_fields::read_sheet::ReadSheet;
use sheet_fields::sizes::{inputs_end, word_bytes};

// Writes the mark of a form at the start. Returns the next position.
fn put_mark(out: &mut [u8], form: Form) -> usize
    requires { 4 ≤ length out.old }
    ensures { Wrote 0 (mark_of form) out.old result out.new }
{
    match form {
        Form::Narrow => put_number(out, 0, 4, 0x54585241),
    }
}

// Input difference j of a sheet that was read, 0 past its inputs.
fn input_at(sheet: &ReadSheet, j: usize) -> u64
    ensures { result ≡ get_or (trail_of sheet.now.bytes.now).inputs j 0 }
{
    if j < sheet.header.inputs {
        return difference_at(sheet, j);
    }
    0
}

// Writes the eight input differences of a sheet that was read from a position on. Returns the next position.
fn put_inputs(sheet: &ReadSheet, out: &mut [u8], at: usize) -> usize
    requires { at + 8 * word_bytes sheet.now.header.form ≤ length out.old }
    ensures { Wrote at (concat 8 (λ j. bytes_of (word_bytes sheet.now.header.form) (get_or (trail_of sheet.now.bytes.now).inputs j 0)))
        out.old result out.new }
{
    let form = sheet.header.form;
    let word = word_bytes(form);
    let mut next = at;
    for j in 0..8 {
        next = put_number(out, next, word, input_at(sheet, j));
    }
    next
}

// Writes block 0 of every trail that has the width and the inputs of a sheet that was read, and so many lines. Returns the next
// position.
pub fn put_header(sheet: &ReadSheet, lines: usize, out: &mut [u8]) -> usize
    requires { 512 ≤ length out.old }
    ensures { (t : Trail) → t.width ≡ sheet.now.header.width → t.inputs ≡ (trail_of sheet.now.bytes.now).inputs → line_count t ≡ lines
        → Wrote 0 (header_block sheet.now.header.form t) out.old result out.new }
{
    let header = sheet.header;
    let form = header.form;
    let width_at = put_mark(out, form);
    let count_at = put_number(out, width_at, 1, header.width as u64);
    let lines_at = put_number(out, count_at, 1, header.inputs as u64);
    let inputs_at = put_number(out, lines_at, 2, lines as u64);
    let rest_at = put_inputs(sheet, out, inputs_at);
    put_zeros(out, rest_at, 512 - inputs_end(form))
}
