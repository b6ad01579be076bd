// One stated difference of a sheet that was read: what is asked of a new one, and its bytes changed (document 02, W-206).

#![tactic(auto)]

ghost use Rattle.std.specs.Prelude.{◌≡◌, ◌+◌, ◌*◌, ◌%◌, ◌^◌, ◌<◌, ◌≤◌, length};
ghost use Rattle.buffers.specs.LittleEndian.{number_at};
ghost use Rattle.sheet.specs.Asking.{verdict};
ghost use Rattle.sheet.specs.Checks.{check_of, check_position};
ghost use Rattle.sheet.specs.Facts.{Limited, SheetRead};
ghost use Rattle.answers.specs.Answers.{reading_means};
ghost use Rattle.changed_sheets.specs.ChangedSheet.{with_check, changed_sheet};
ghost use Rattle.changed_sheets.specs.ChangeCall.{change_questions};

use answers::Refusal;
use arithmetic::is_word;
use block_questions::checks::number_sum;
use buffers::{put_number, u32_at};
use sheet::Header;
use sheet_fields::record_position;
use sheet_fields::sizes::{records_in_block, word_bytes};

// Questions 17 and 14, of a line and a new difference for it.
pub fn change_stage(header: Header, k: usize, difference: u64) -> Result<Header, Refusal>
    requires { Limited header }
    ensures { reading_means result ≡ verdict (change_questions header k difference) header }
{
    if header.lines <= k {
        return Err(Refusal::NoSuchLine);
    }
    if !is_word(header.width, difference) {
        return Err(Refusal::Difference(k));
    }
    Ok(header)
}

// Replaces line k's stated difference, and renews the check of the line's block.
pub fn change_difference(sheet: &mut [u8], header: Header, k: usize, difference: u64)
    requires { SheetRead sheet.old header × (k < header.lines) }
    ensures { sheet.new ≡ changed_sheet sheet.old k difference }
{
    let form = header.form;
    let word = word_bytes(form);
    let at = record_position(header, k) + 8 + word;
    let old = number_sum(sheet, at, word / 4);
    put_number(sheet, at, word, difference);
    let new = number_sum(sheet, at, word / 4);
    renew_check(sheet, 1 + k / records_in_block(form), old, new);
}

// Renews a block's check by what changed in the block: the old check, minus the sum of the old numbers, plus that of the new. The
// other numbers are not added up again.
fn renew_check(sheet: &mut [u8], block: usize, old: u32, new: u32)
    requires { (512 * block + 512 ≤ length sheet.old) × (block < 9)
        × ((check_of sheet.old block + old) % 2 ^ 32 ≡ (number_at 4 sheet.old (check_position block) + new) % 2 ^ 32) }
    ensures { sheet.new ≡ with_check block sheet.old }
{
    let at = 512 * block + 508;
    let without = std::num::wrapping_sub_u32(u32_at(sheet, at), old);
    let check = std::num::wrapping_add_u32(without, new);
    put_number(sheet, at, 4, check as u64);
}
