// Writes the joined sheet of two sheets that were read (document 02, W-203).

#![tactic(auto)]

mod lines;

ghost use Rattle.std.specs.Prelude.{◌≡◌, ◌+◌, ◌*◌, ◌≤◌, length};
ghost use Rattle.sheet.specs.Questions.{line_blocks};
ghost use Rattle.joined_sheets.specs.JoinedSheet.{joined_sheet};

use crate::lines::put_line_blocks;
use sealing::write_checks;
use sheet::Header;
use sheet_fields::read_sheet::ReadSheet;
use sheet_writer::header::put_header;
use sheet_writer::line_blocks;

// The bytes of the joined sheet.
pub fn joined_bytes(a: Header, b: Header) -> usize
    requires { a.lines + b.lines ≤ 248 }
    ensures { result ≡ 512 * (1 + line_blocks a.form (a.lines + b.lines)) }
{
    let form = a.form;
    512 * (1 + line_blocks(form, a.lines + b.lines))
}

// Writes the joined sheet of two that were read, over all of the buffer.
pub fn write_joined(first: &ReadSheet, second: &ReadSheet, names: &[u64], out: &mut [u8])
    requires { (length names.now ≡ second.now.header.inputs) × (first.now.header.lines + second.now.header.lines ≤ 248)
        × (length out.old ≡ 512 * (1 + line_blocks first.now.header.form (first.now.header.lines + second.now.header.lines))) }
    ensures { out.new ≡ joined_sheet first.now.bytes.now second.now.bytes.now names.now }
{
    let a = first.header;
    let b = second.header;
    let form = a.form;
    let lines = a.lines + b.lines;
    let blocks = line_blocks(form, lines);
    let lines_at = put_header(first, lines, out);
    put_line_blocks(first, second, names, blocks, out, lines_at);
    write_checks(out, 1 + blocks);
}
