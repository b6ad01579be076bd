// The texts as C takes them: bytes in a lent buffer, and a struct for the answer.

#![tactic(auto)]

ghost use Rattle.std.specs.Prelude.{◌≡◌};
ghost use Rattle.answers.specs.Answers.{answer_of};
ghost use Rattle.clause_file.specs.Parts.{clause_text_call};
ghost use Rattle.report_file.specs.Parts.{report_text_call};

use answers::Answer;

// Writes a part of the clause file. Counts bytes.
pub fn clause_text(sheet: &[u8], part: u64, out: &mut [u8]) -> Answer
    ensures { (result ≡ answer_of (clause_text_call sheet.now part out.old).answer)
        × (out.new ≡ (clause_text_call sheet.now part out.old).buffer) }
{
    Answer::of(texts::clause_text(sheet, part as usize, out))
}

// Writes a part of the report. Counts bytes.
pub fn report_text(sheet: &[u8], part: u64, out: &mut [u8]) -> Answer
    ensures { (result ≡ answer_of (report_text_call sheet.now part out.old).answer)
        × (out.new ≡ (report_text_call sheet.now part out.old).buffer) }
{
    Answer::of(texts::report_text(sheet, part as usize, out))
}
