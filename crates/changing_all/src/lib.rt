// Sixty-four changes in one call (document 02, W-207). The call that users make is `change_all`.

#![tactic(auto)]

ghost use Rattle.std.specs.Prelude.{◌≡◌};
ghost use Rattle.change_lists.specs.ChangesCall.{changes_call, changes_sheet};
ghost use Rattle.changing_all.specs.Answers.{changes_means};

use answers::Refusal;
use applied_changes::apply_pairs;
use reading::read;

// Makes the change of each pair of line and difference, in order, and writes a reply for each. A pair that would be refused is
// skipped. Returns the number of pairs. A refusal of the call changes no byte of the sheet, nor of the replies.
pub fn change_all(sheet: &mut [u8], pairs: &[u64], replies: &mut [u8]) -> Result<usize, Refusal>
    ensures { (changes_means result ≡ (changes_call sheet.old pairs.now replies.old).answer)
        × (replies.new ≡ (changes_call sheet.old pairs.now replies.old).buffer)
        × (sheet.new ≡ changes_sheet sheet.old pairs.now replies.old) }
{
    let header = read(sheet)?;
    let count = pairs.len() / 2;
    if 64 < count {
        return Err(Refusal::Pairs);
    }
    if replies.len() < count {
        return Err(Refusal::Replies);
    }
    Ok(apply_pairs(sheet, header, pairs, replies))
}
