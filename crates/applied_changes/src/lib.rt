// A list of changes, made on a sheet that was read (document 02, W-207).

#![tactic(auto)]

ghost use Rattle.std.specs.Prelude.{◌≡◌, ◌/◌, ◌≤◌, length};
ghost use Rattle.buffers.specs.Overwrite.{Wrote};
ghost use Rattle.sheet.specs.Facts.{SheetRead};
ghost use Rattle.changed_sheets.specs.ChangeCall.{change_call};
ghost use Rattle.change_lists.specs.Pairs.{pairs_of};
ghost use Rattle.change_lists.specs.Applied.{sheet_after, reply_of, replies_to};

use answers::Refusal;
use sheet::Header;
use sheet_changes::{change_difference, change_stage};

// Makes one change, or skips it. Replies 0, or the refusal's number.
fn apply_pair(sheet: &mut [u8], header: Header, k: usize, difference: u64) -> u8
    requires { SheetRead sheet.old header }
    ensures { (result ≡ reply_of (change_call sheet.old k difference).answer)
        × (sheet.new ≡ (change_call sheet.old k difference).buffer) }
{
    if let Err(refusal) = change_stage(header, k, difference) {
        return refusal.number() as u8;
    }
    change_difference(sheet, header, k, difference);
    0
}

// Makes the changes of all pairs, in order, and writes a reply for each from the buffer's start. The sheet is not read again in
// between: it stays one that was read, with the same parts.
pub fn apply_pairs(sheet: &mut [u8], header: Header, pairs: &[u64], replies: &mut [u8]) -> usize
    requires { SheetRead sheet.old header × (length pairs.now / 2 ≤ length replies.old) }
    ensures { Wrote 0 (replies_to sheet.old (pairs_of pairs.now)) replies.old result replies.new
        × (sheet.new ≡ sheet_after sheet.old (pairs_of pairs.now)) }
{
    let count = pairs.len() / 2;
    for i in 0..count {
        replies[i] = apply_pair(sheet, header, pairs[2 * i] as usize, pairs[2 * i + 1]);
    }
    count
}
