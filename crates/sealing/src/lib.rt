// Sealing a sheet: it is given its checks. The call that users make is `seal`.

#![tactic(auto)]

ghost use Rattle.std.specs.Prelude.{◌≡◌, ◌*◌, ◌≤◌, length};
ghost use Rattle.sheet.specs.Asking.{verdict};
ghost use Rattle.sheet.specs.Fields.{header_of};
ghost use Rattle.sheet.specs.Questions.{questions};
ghost use Rattle.sheet.specs.declared.Mode.TheVariants.{Seal};
ghost use Rattle.answers.specs.Answers.{reading_means};
ghost use Rattle.sealed_sheets.specs.Sealing.{with_checks, sealed};

use answers::Refusal;
use block_questions::checks::block_check;
use buffers::put_number;
use reading::sealing_stages;
use sheet::Header;

// Asks sealing's questions, and writes every block's check where the answers are yes. A refusal changes no byte.
pub fn seal(sheet: &mut [u8]) -> Result<Header, Refusal>
    ensures { (reading_means result ≡ verdict (questions Seal sheet.old) (header_of sheet.old))
        × (sheet.new ≡ sealed sheet.old) }
{
    let header = sealing_stages(sheet)?;
    write_checks(sheet, header.blocks);
    Ok(header)
}

// Writes the check of each of the blocks, whatever else stands in them.
pub fn write_checks(s: &mut [u8], blocks: usize)
    requires { (length s.old ≡ 512 * blocks) × (blocks ≤ 9) }
    ensures { s.new ≡ with_checks blocks s.old }
{
    for b in 0..blocks {
        let check = block_check(s, b);
        put_number(s, 512 * b + 508, 4, check as u64);
    }
}
