// The line blocks of a joined sheet.
ghost use Rattle.std.specs.Prelude.{◌≡◌, ◌+◌, ◌*◌, ◌/◌, ◌≤◌, length};
ghost use Rattle.words.specs.Below.{concat};
ghost use Rattle.buffers.specs.Overwrite.{Wrote};
ghost use Rattle.sheet.specs.Blocks.{block_bytes, length_most};
ghost use Rattle.sheet_encoding.specs.Encoding.{line_block};
ghost use Rattle.joined_sheets.specs.JoinedSheet.{joined_trail};

use joined_lines::joined_line_at;
use sheet_fields::read_sheet::ReadSheet;
use sheet_fields::sizes::{record_bytes, records_in_block};
use sheet_writer::put_zeros;
use sheet_writer::records::put_record;

// Writes line block 1 + i from a position on: its records, then zeros. Returns the next position.
fn put_line_block(
    first: &ReadSheet,
    second: &ReadSheet,
    names: &[u64],
    i: usize,
    out: &mut [u8],
    at: usize,
) -> usize
    requires { (length names.now ≡ second.now.header.inputs) × (i ≤ length_most / block_bytes)
        × (at + 512 ≤ length out.old) }
    ensures { Wrote at (line_block first.now.header.form (joined_trail first.now.bytes.now second.now.bytes.now names.now) i)
        out.old result out.new }
{
    let form = first.header.form;
    let records = records_in_block(form);
    let mut next = at;
    for j in 0..records {
        let line = joined_line_at(first, second, names, records * i + j);
        next = put_record(out, next, form, line);
    }
    put_zeros(out, next, 512 - record_bytes(form) * records)
}

// Writes the line blocks from a position on. Returns the next position.
pub fn put_line_blocks(
    first: &ReadSheet,
    second: &ReadSheet,
    names: &[u64],
    blocks: usize,
    out: &mut [u8],
    at: usize,
) -> usize
    requires { (length names.now ≡ second.now.header.inputs) × (blocks ≤ length_most / block_bytes)
        × (at + 512 * blocks ≤ length out.old) }
    ensures { Wrote at
        (concat blocks (line_block first.now.header.form (joined_trail first.now.bytes.now second.now.bytes.now names.now)))
        out.old result out.new }
{
    let mut next = at;
    for i in 0..blocks {
        next = put_line_block(first, second, names, i, out, next);
    }
    next
}
