// A change, a list of changes and a trial as C takes them: a struct for the answer.

#![tactic(auto)]

ghost use Rattle.std.specs.Prelude.{◌≡◌};
ghost use Rattle.answers.specs.Answers.{answer_of};
ghost use Rattle.change_lists.specs.ChangesCall.{changes_call, changes_sheet};
ghost use Rattle.changed_sheets.specs.ChangeCall.{change_call};
ghost use Rattle.tried_changes.specs.TrialCall.{trial_call};

use answers::Answer;

// Changes one stated difference. Counts nothing.
pub fn change(sheet: &mut [u8], line: u64, difference: u64) -> Answer
    ensures { (result ≡ answer_of (change_call sheet.old line difference).answer)
        × (sheet.new ≡ (change_call sheet.old line difference).buffer) }
{
    Answer::of(changing::change(sheet, line as usize, difference).map(|()| 0))
}

// Makes a list of changes. Counts the pairs.
pub fn change_all(sheet: &mut [u8], pairs: &[u64], replies: &mut [u8]) -> Answer
    ensures { (result ≡ answer_of (changes_call sheet.old pairs.now replies.old).answer)
        × (replies.new ≡ (changes_call sheet.old pairs.now replies.old).buffer)
        × (sheet.new ≡ changes_sheet sheet.old pairs.now replies.old) }
{
    Answer::of(changing_all::change_all(sheet, pairs, replies))
}

// Writes the report that the sheet would have. Counts bytes.
pub fn trial(sheet: &[u8], line: u64, difference: u64, out: &mut [u8]) -> Answer
    ensures { (result ≡ answer_of (trial_call sheet.now line difference out.old).answer)
        × (out.new ≡ (trial_call sheet.now line difference out.old).buffer) }
{
    Answer::of(changing::trial(sheet, line as usize, difference, out))
}
