// Who uses each word of a sheet (document 02, W-208). The call that users make is `index`.

#![tactic(auto)]

ghost use Rattle.std.specs.Prelude.{◌≡◌};
ghost use Rattle.sheet_indexes.specs.IndexCall.{index_call};
ghost use Rattle.indexing.specs.Answers.{index_means};

use answers::Refusal;
use index_writer::{WORDS, index_starts, put_index};
use reading::read;
use sheet_fields::read_sheet::ReadSheet;

// Writes for each word how many lines use it, and those lines. Returns how many numbers that is.
pub fn index(sheet: &[u8], out: &mut [u16]) -> Result<usize, Refusal>
    ensures { (index_means result ≡ (index_call sheet.now out.old).answer)
        × (out.new ≡ (index_call sheet.now out.old).buffer) }
{
    let header = read(sheet)?;
    let read_sheet = ReadSheet {
        bytes: sheet,
        header,
    };
    let mut starts = [0u16; WORDS];
    let need = index_starts(&read_sheet, &mut starts);
    if out.len() < need {
        return Err(Refusal::Room);
    }
    let numbers = put_index(&read_sheet, &mut starts, out);
    Ok(numbers)
}
