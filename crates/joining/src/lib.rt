// Joins two sheets (document 02, W-203). The call that users make is `join`.

#![tactic(auto)]

ghost use Rattle.std.specs.Prelude.{◌≡◌};
ghost use Rattle.joined_sheets.specs.JoinCall.{join_call};
ghost use Rattle.joining.specs.Answers.{join_means, own_call};

use answers::Refusal;
use join_questions::join_stage;
use joined_writer::{joined_bytes, write_joined};
use reading::read;
use sheet_fields::read_sheet::ReadSheet;

// Writes the first sheet's inputs and lines, then the second's lines with operands renumbered, and the checks. `names[j]` is the word
// of the first that input j of the second is. Returns how many bytes that is.
pub fn join(first: &[u8], second: &[u8], names: &[u64], out: &mut [u8]) -> Result<usize, Refusal>
    ensures { (join_means result ≡ (join_call first.now second.now names.now out.old).answer)
        × (out.new ≡ (join_call first.now second.now names.now out.old).buffer) }
{
    let a = read(first)?;
    let b = read(second)?;
    let one = ReadSheet {
        bytes: first,
        header: a,
    };
    let two = ReadSheet {
        bytes: second,
        header: b,
    };
    join_read(&one, &two, names, out)
}

// Joins two sheets that were read.
fn join_read(
    first: &ReadSheet,
    second: &ReadSheet,
    names: &[u64],
    out: &mut [u8],
) -> Result<usize, Refusal>
    ensures { (join_means result ≡ (own_call first.now.bytes.now second.now.bytes.now names.now out.old).answer)
        × (out.new ≡ (own_call first.now.bytes.now second.now.bytes.now names.now out.old).buffer) }
{
    join_stage(first, second, names)?;
    let need = joined_bytes(first.header, second.header);
    if out.len() < need {
        return Err(Refusal::Room);
    }
    write_joined(first, second, names, &mut out[0..need]);
    Ok(need)
}
