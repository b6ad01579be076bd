// One part of a sheet's text, put where there is room for it.

#![tactic(auto)]

ghost use Rattle.std.specs.Prelude.{◌≡◌};
ghost use Rattle.text_parts.specs.Parts.{part_means, room_call};

use answers::Refusal;
use decimal::put_text;

// Writes a text from the buffer's start, where there is room for it. Counts the bytes.
pub fn put_part(out: &mut [u8], text: &[u8]) -> Result<usize, Refusal>
    ensures { (part_means result ≡ (room_call text.now out.old).answer)
        × (out.new ≡ (room_call text.now out.old).buffer) }
{
    if out.len() < text.len() {
        return Err(Refusal::Room);
    }
    let bytes = put_text(out, 0, text);
    Ok(bytes)
}
