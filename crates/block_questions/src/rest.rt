// Question 16: the records past the last line, and the bytes after the records.
ghost use Rattle.std.specs.Prelude.{◌≡◌, ◌+◌, ◌-◌, ◌*◌, ◌≤◌, length};
ghost use Rattle.words.specs.Below.{concat};
ghost use Rattle.sheet.specs.Form.{record_bytes, records_in_block};
ghost use Rattle.sheet.specs.Blocks.{block_bytes, check_offset};
ghost use Rattle.sheet.specs.Asking.{verdict};
ghost use Rattle.sheet.specs.Questions.{zero_bytes, block_rest, rest_question};
ghost use Rattle.sheet.specs.Facts.{Whole};
ghost use Rattle.answers.specs.Answers.{reading_means};

use answers::Refusal;
use sheet::{Form, Header};
use sheet_fields::predicates::zero_bytes;
use sheet_fields::sizes::{record_bytes, records_in_block};

// Whether the bytes of line block 1 + i from its record j to its check are zero.
fn rest_from(s: &[u8], form: Form, i: usize, j: usize) -> bool
    requires { (512 * i + 1024 ≤ length s.now) × (j ≤ records_in_block form) }
    ensures { result ≡ zero_bytes (check_offset - record_bytes form * j) s.now (block_bytes * (1 + i) + record_bytes form * j) }
{
    let before = record_bytes(form) * j;
    zero_bytes(508 - before, s, 512 * (1 + i) + before)
}

// Whether all that is not a line's in line block 1 + i is zero: the bytes from the record after the block's last line to its check.
fn block_rest(s: &[u8], header: Header, i: usize) -> bool
    requires { 512 * i + 1024 ≤ length s.now }
    ensures { result ≡ block_rest s.now header i }
{
    let form = header.form;
    let records = records_in_block(form);
    if header.lines <= records * i {
        return rest_from(s, form, i, 0);
    }
    let lines = header.lines - records * i;
    if records <= lines {
        return rest_from(s, form, i, records);
    }
    rest_from(s, form, i, lines)
}

// Question 16 of every line block.
pub fn rest_stage(s: &[u8], header: Header) -> Result<Header, Refusal>
    requires { Whole s.now header }
    ensures { reading_means result ≡ verdict (concat (header.blocks - 1) (rest_question s.now header)) header }
{
    let line_blocks = header.blocks - 1;
    for i in 0..line_blocks {
        if !block_rest(s, header, i) {
            return Err(Refusal::Rest(1 + i));
        }
    }
    Ok(header)
}
