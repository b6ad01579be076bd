// Questions 10 and 11, of a line's operands, and 23 in sealing (document 01, "Questions, in order"; document 02, W-201 and W-205).

#![tactic(auto)]

ghost use Rattle.std.specs.Prelude.{◌≡◌, ℕ};
ghost use Rattle.sheet.specs.Asking.{all_yes};
ghost use Rattle.sheet.specs.Questions.{operands_earlier, operands_differ, self_xor_questions};

use sheet::{Mode, Record};

// Whether each operand that the kind uses names a word before the given one.
pub fn operands_earlier(line: Record, word: usize) -> bool
    ensures { result ≡ operands_earlier line word }
{
    if word <= line.first {
        return false;
    }
    let kind = line.kind;
    match kind {
        1 | 5 | 9 => line.second < word,
        _ => true,
    }
}

// Whether the operands of kinds 5 and 9 name different words.
pub fn operands_differ(line: Record) -> bool
    ensures { result ≡ operands_differ line }
{
    let kind = line.kind;
    match kind {
        5 | 9 => line.first != line.second,
        _ => true,
    }
}

// Whether the line, whatever its number, passes question 23: reading does not ask it.
pub fn self_xor_admitted(mode: Mode, line: Record) -> bool
    ensures { (k : ℕ) → result ≡ all_yes (self_xor_questions mode k line) }
{
    let kind = line.kind;
    match kind {
        1 => match mode {
            Mode::Read => true,
            Mode::Seal => line.first != line.second,
        },
        _ => true,
    }
}
