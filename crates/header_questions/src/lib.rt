// Questions 3 to 8, of the header (document 01, "Questions, in order").

#![tactic(auto)]

ghost use Rattle.std.specs.Prelude.{◌≡◌, ◌-◌, ◌<◌, ◌≤◌, length};
ghost use Rattle.words.specs.Below.{all};
ghost use Rattle.sheet.specs.Form.{width_most, inputs_end};
ghost use Rattle.sheet.specs.Blocks.{check_offset};
ghost use Rattle.sheet.specs.Asking.{verdict};
ghost use Rattle.sheet.specs.Questions.{within as Questions·within, zero_bytes, marked as Questions·marked, lines_right, input_right, header_questions};
ghost use Rattle.sheet.specs.Facts.{Whole};
ghost use Rattle.answers.specs.Answers.{reading_means};

use answers::Refusal;
use arithmetic::is_word;
use sheet::Header;
use sheet_fields::input_difference;
use sheet_fields::predicates::{within, zero_bytes};
use sheet_fields::sizes::{inputs_end, records_in_block, width_most};

// Whether the four mark bytes are there.
fn marked(s: &[u8]) -> bool
    requires { 4 ≤ length s.now }
    ensures { result ≡ Questions·marked s.now }
{
    if s[0] != 0x41 {
        return false;
    }
    if s[1] != 0x52 {
        return false;
    }
    if s[2] != 0x58 {
        return false;
    }
    s[3] == 0x54
}

// Whether the width is within its limits.
fn width_right(header: Header) -> bool
    ensures { result ≡ Questions·within 2 (width_most header.form) header.width }
{
    let form = header.form;
    within(2, width_most(form), header.width as usize)
}

// Whether the line count is within its limits, with just as many line blocks as it needs.
fn lines_right(header: Header) -> bool
    requires { 1 ≤ header.blocks }
    ensures { result ≡ lines_right header }
{
    if !within(1, 248, header.lines) {
        return false;
    }
    let form = header.form;
    let records = records_in_block(form);
    header.blocks - 1 == (header.lines + (records - 1)) / records
}

// Whether input difference j is a word if it is among the first m, and 0 else.
fn input_right(s: &[u8], header: Header, j: usize) -> bool
    requires { (inputs_end header.form ≤ length s.now) × (j < 8) × (1 ≤ header.width) × (header.width ≤ 64) }
    ensures { result ≡ input_right s.now header j }
{
    let form = header.form;
    let difference = input_difference(s, j, form);
    if j < header.inputs {
        is_word(header.width, difference)
    } else {
        difference == 0
    }
}

// Whether all eight input differences are right.
fn inputs_right(s: &[u8], header: Header) -> bool
    requires { (inputs_end header.form ≤ length s.now) × (1 ≤ header.width) × (header.width ≤ 64) }
    ensures { result ≡ all 8 (input_right s.now header) }
{
    (0..8).all(|j| input_right(s, header, j))
}

// Whether the header's bytes from the end of its input differences to its check are zero.
fn rest_zero(s: &[u8], header: Header) -> bool
    requires { check_offset ≤ length s.now }
    ensures { result ≡ zero_bytes (check_offset - inputs_end header.form) s.now (inputs_end header.form) }
{
    let form = header.form;
    let end = inputs_end(form);
    zero_bytes(508 - end, s, end)
}

// Questions 3 to 8.
pub fn header_stage(s: &[u8], header: Header) -> Result<Header, Refusal>
    requires { Whole s.now header }
    ensures { reading_means result ≡ verdict (header_questions s.now header) header }
{
    if !marked(s) {
        return Err(Refusal::Mark);
    }
    if !width_right(header) {
        return Err(Refusal::Width);
    }
    if !within(1, 8, header.inputs) {
        return Err(Refusal::Inputs);
    }
    if !lines_right(header) {
        return Err(Refusal::Lines);
    }
    if !inputs_right(s, header) {
        return Err(Refusal::InputDifferences);
    }
    if !rest_zero(s, header) {
        return Err(Refusal::HeaderRest);
    }
    Ok(header)
}
