// Reading as C takes it: a struct for the answer.

#![tactic(auto)]

ghost use Rattle.std.specs.Prelude.{◌≡◌};
ghost use Rattle.sheet.specs.Asking.{verdict};
ghost use Rattle.sheet.specs.Fields.{header_of};
ghost use Rattle.sheet.specs.Questions.{questions};
ghost use Rattle.sheet.specs.declared.Mode.TheVariants.{Read};
ghost use Rattle.answers.specs.Answers.{count_means, answer_of};

use answers::{Answer, Refusal};

// Asks all questions of a sheet. Counts its lines.
pub fn read(sheet: &[u8]) -> Answer
    ensures { result ≡ answer_of (verdict (questions Read sheet.now) (header_of sheet.now).lines) }
{
    Answer::of(count_lines(sheet))
}

// Counts the lines of a sheet that reading accepts.
fn count_lines(sheet: &[u8]) -> Result<usize, Refusal>
    ensures { count_means result ≡ verdict (questions Read sheet.now) (header_of sheet.now).lines }
{
    let header = reading::read(sheet)?;
    Ok(header.lines)
}
