// The texts that users take away, part by part (document 01, "The programs"): `clause_text`, `report_text` and `refusal_text`.

#![tactic(auto)]

ghost use Rattle.std.specs.Prelude.{◌≡◌};
ghost use Rattle.buffers.specs.Overwrite.{Wrote};
ghost use Rattle.sheet.specs.Asking.{verdict};
ghost use Rattle.sheet.specs.Fields.{header_of};
ghost use Rattle.answers.specs.Answers.{reading_means};
ghost use Rattle.text_parts.specs.Parts.{part_means, part_asks};
ghost use Rattle.clause_file.specs.Parts.{clause_text_call};
ghost use Rattle.report_file.specs.Parts.{report_text_call};
ghost use Rattle.texts.specs.Refusals.{refusal_text};

use answers::Refusal;
use decimal::put_line;
use reading::read;
use sheet::Header;
use sheet_fields::read_sheet::ReadSheet;

// Enough for any refusal.
pub const REFUSAL_BYTES: usize = 64;

// Writes a part of the clause file: part 0 is the header's line, part 1 + k the clauses of line k. Counts the bytes.
pub fn clause_text(sheet: &[u8], part: usize, out: &mut [u8]) -> Result<usize, Refusal>
    ensures { (part_means result ≡ (clause_text_call sheet.now part out.old).answer)
        × (out.new ≡ (clause_text_call sheet.now part out.old).buffer) }
{
    let header = read_part(sheet, part)?;
    let sheet = ReadSheet {
        bytes: sheet,
        header,
    };
    clause_text::write_part(&sheet, part, out)
}

// Writes a part of the report: part k is line k's line, part L the totals. Counts the bytes.
pub fn report_text(sheet: &[u8], part: usize, out: &mut [u8]) -> Result<usize, Refusal>
    ensures { (part_means result ≡ (report_text_call sheet.now part out.old).answer)
        × (out.new ≡ (report_text_call sheet.now part out.old).buffer) }
{
    let header = read_part(sheet, part)?;
    let sheet = ReadSheet {
        bytes: sheet,
        header,
    };
    report_text::write_part(&sheet, part, out)
}

// Reads a sheet, and asks whether its texts have this part.
fn read_part(sheet: &[u8], part: usize) -> Result<Header, Refusal>
    ensures { reading_means result ≡ verdict (part_asks sheet.now part) (header_of sheet.now) }
{
    let header = read(sheet)?;
    if header.lines < part {
        return Err(Refusal::NoSuchLine);
    }
    Ok(header)
}

// Writes a refusal: `refused NUMBER PLACE`, and the line's end. Tells how many bytes that is.
pub fn refusal_text(number: u32, place: u64, out: &mut [u8; REFUSAL_BYTES]) -> usize
    ensures { Wrote 0 (refusal_text number place) out.old result out.new }
{
    put_line(out, 0, b"refused", &[number as u64, place])
}
