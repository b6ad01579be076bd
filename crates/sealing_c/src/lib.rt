// Sealing as C takes it: a struct for the answer.

#![tactic(auto)]

ghost use Rattle.std.specs.Prelude.{◌≡◌};
ghost use Rattle.sheet.specs.Asking.{verdict};
ghost use Rattle.sheet.specs.Fields.{header_of};
ghost use Rattle.sheet.specs.Questions.{questions};
ghost use Rattle.sheet.specs.declared.Mode.TheVariants.{Seal};
ghost use Rattle.answers.specs.Answers.{count_means, answer_of};
ghost use Rattle.sealed_sheets.specs.Sealing.{sealed};

use answers::{Answer, Refusal};

// Asks sealing's questions, and writes every block's check. Counts the blocks.
pub fn seal(sheet: &mut [u8]) -> Answer
    ensures { (result ≡ answer_of (verdict (questions Seal sheet.old) (header_of sheet.old).blocks))
        × (sheet.new ≡ sealed sheet.old) }
{
    Answer::of(seal_blocks(sheet))
}

// Seals a sheet, and counts the blocks.
fn seal_blocks(sheet: &mut [u8]) -> Result<usize, Refusal>
    ensures { (count_means result ≡ verdict (questions Seal sheet.old) (header_of sheet.old).blocks)
        × (sheet.new ≡ sealed sheet.old) }
{
    let header = sealing::seal(sheet)?;
    Ok(header.blocks)
}
