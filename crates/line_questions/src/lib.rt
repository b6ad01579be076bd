// Questions 9 to 15 of each line, and 23 in sealing (document 01, "Questions, in order"; document 02, W-201 and W-205).

#![tactic(auto)]

ghost use Rattle.std.specs.Prelude.{◌≡◌, ◌<◌, ◌≤◌};
ghost use Rattle.words.specs.Below.{concat};
ghost use Rattle.sheet.specs.Asking.{verdict};
ghost use Rattle.sheet.specs.Questions.{field_questions, record_questions, line_questions};
ghost use Rattle.sheet.specs.Facts.{Whole, Limited};
ghost use Rattle.answers.specs.Answers.{reading_means};

use answers::Refusal;
use arithmetic::is_word;
use field_questions::{amount_right, constant_right, unused_zero};
use operand_questions::{operands_differ, operands_earlier, self_xor_admitted};
use sheet::{Header, Mode, Record};
use sheet_fields::predicates::within;
use sheet_fields::record_of;

// Questions 12 to 15 of line k's record, whose kind is known.
fn fields_stage(header: Header, k: usize, line: Record) -> Result<Header, Refusal>
    requires { Limited header × (1 ≤ line.kind) × (line.kind ≤ 9) }
    ensures { reading_means result ≡ verdict (field_questions header k line) header }
{
    let n = header.width;
    if !amount_right(line, n) {
        return Err(Refusal::Amount(k));
    }
    if !constant_right(line, n) {
        return Err(Refusal::Constant(k));
    }
    if !is_word(n, line.difference) {
        return Err(Refusal::Difference(k));
    }
    if !unused_zero(line) {
        return Err(Refusal::UnusedField(k));
    }
    Ok(header)
}

// All questions of line k's record: 9 to 11, then 23 if the mode is sealing, then 12 to 15.
fn record_stage(mode: Mode, header: Header, k: usize, line: Record) -> Result<Header, Refusal>
    requires { Limited header × (k < header.lines) }
    ensures { reading_means result ≡ verdict (record_questions mode header k line) header }
{
    if !within(1, 9, line.kind as usize) {
        return Err(Refusal::Kind(k));
    }
    if !operands_earlier(line, header.inputs + k) {
        return Err(Refusal::LaterOperand(k));
    }
    if !operands_differ(line) {
        return Err(Refusal::SameOperands(k));
    }
    if !self_xor_admitted(mode, line) {
        return Err(Refusal::SelfXor(k));
    }
    fields_stage(header, k, line)
}

// The questions of each line, line by line.
pub fn lines_stage(s: &[u8], mode: Mode, header: Header) -> Result<Header, Refusal>
    requires { Whole s.now header × Limited header }
    ensures { reading_means result ≡ verdict (concat header.lines (line_questions mode s.now header)) header }
{
    let lines = header.lines;
    for k in 0..lines {
        let answer = record_stage(mode, header, k, record_of(s, header, k));
        let Ok(_) = answer else {
            return answer;
        };
    }
    Ok(header)
}
