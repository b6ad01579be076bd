// Reading a sheet: all questions in their order. The call that users make is `read`.

#![tactic(auto)]

ghost use Rattle.std.specs.Prelude.{◌≡◌};
ghost use Rattle.sheet.specs.Asking.{verdict};
ghost use Rattle.sheet.specs.Fields.{header_of};
ghost use Rattle.sheet.specs.Questions.{length_questions, later_questions, questions};
ghost use Rattle.sheet.specs.Facts.{Whole};
ghost use Rattle.sheet.specs.declared.Mode.TheVariants.{Read, Seal};
ghost use Rattle.answers.specs.Answers.{reading_means};

use answers::Refusal;
use block_questions::checks::check_stage;
use block_questions::rest::rest_stage;
use header_questions::header_stage;
use line_questions::lines_stage;
use sheet::{Header, Mode};
use sheet_fields::header_of;
use sheet_fields::predicates::within;

// Asks all questions of a sheet: its parts, or the first question whose answer is no.
pub fn read(sheet: &[u8]) -> Result<Header, Refusal>
    ensures { reading_means result ≡ verdict (questions Read sheet.now) (header_of sheet.now) }
{
    let length = length_stage(sheet);
    let Ok(header) = length else {
        return length;
    };
    let checks = check_stage(sheet, header);
    let Ok(_) = checks else {
        return checks;
    };
    later_stages(sheet, Mode::Read, header)
}

// All questions of sealing, which leaves out the checks. With one function for both modes reading would be a fifth slower.
pub fn sealing_stages(s: &[u8]) -> Result<Header, Refusal>
    ensures { reading_means result ≡ verdict (questions Seal s.now) (header_of s.now) }
{
    let length = length_stage(s);
    let Ok(header) = length else {
        return length;
    };
    later_stages(s, Mode::Seal, header)
}

// Question 1, with the header's numbers as the parts.
fn length_stage(s: &[u8]) -> Result<Header, Refusal>
    ensures { reading_means result ≡ verdict (length_questions s.now) (header_of s.now) }
{
    if s.len() % 512 != 0 {
        return Err(Refusal::Length);
    }
    if !within(1024, 4608, s.len()) {
        return Err(Refusal::Length);
    }
    Ok(header_of(s))
}

// Questions 3 to 16, with 23 among them in sealing.
fn later_stages(s: &[u8], mode: Mode, header: Header) -> Result<Header, Refusal>
    requires { Whole s.now header }
    ensures { reading_means result ≡ verdict (later_questions mode s.now header) header }
{
    let head = header_stage(s, header);
    let Ok(_) = head else {
        return head;
    };
    let lines = lines_stage(s, mode, header);
    let Ok(_) = lines else {
        return lines;
    };
    rest_stage(s, header)
}
