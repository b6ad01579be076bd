// Of a sheet that was read: its clause file part by part, each part written where there is room for it (document 01, "The programs").

#![tactic(auto)]

ghost use Rattle.std.specs.Prelude.{◌≡◌, suc, ◌≤◌, ◌<◌, length};
ghost use Rattle.buffers.specs.Overwrite.{Wrote};
ghost use Rattle.sheet.specs.Fields.{trail_of};
ghost use Rattle.text_parts.specs.Parts.{part_means, room_call};
ghost use Rattle.dimacs.specs.Text.{header_text};
ghost use Rattle.dimacs.specs.Numbers.{numbers_text, AllBelow};
ghost use Rattle.clause_file.specs.Parts.{file_part};

use answers::Refusal;
use clause_sizes::Counts;
use clause_sizes::counting::both_counts;
use decimal::put_line;
use literal_text::put_list;
use sheet_fields::read_sheet::ReadSheet;
use text_parts::put_part;

// Enough for the header's line.
const HEADER_BYTES: usize = 64;

// The numbers of the longest list that a line has.
const LIST_NUMBERS: usize = 4944;

// The bytes of a number at most: a minus, five digits, and the blank behind them.
const NUMBER_BYTES: usize = 7;

// Enough for the clauses of any line.
const CLAUSES_BYTES: usize = NUMBER_BYTES * LIST_NUMBERS;

// Writes a part of the file: the header's line, or the clauses of line `part - 1`.
pub fn write_part(sheet: &ReadSheet, part: usize, out: &mut [u8]) -> Result<usize, Refusal>
    requires { part ≤ sheet.now.header.lines }
    ensures { (part_means result ≡ (room_call (file_part (trail_of sheet.now.bytes.now) part) out.old).answer)
        × (out.new ≡ (room_call (file_part (trail_of sheet.now.bytes.now) part) out.old).buffer) }
{
    if part == 0 {
        return write_header(sheet, out);
    }
    write_clauses(sheet, part - 1, out)
}

// Writes the header's line.
fn write_header(sheet: &ReadSheet, out: &mut [u8]) -> Result<usize, Refusal>
    ensures { (part_means result ≡ (room_call (file_part (trail_of sheet.now.bytes.now) 0) out.old).answer)
        × (out.new ≡ (room_call (file_part (trail_of sheet.now.bytes.now) 0) out.old).buffer) }
{
    let mut text = [0u8; HEADER_BYTES];
    let bytes = put_header(&mut text, both_counts(sheet));
    put_part(out, &text[0..bytes])
}

// Writes the header's line of two counts: `p cnf VARIABLES CLAUSES`.
fn put_header(out: &mut [u8], counts: Counts) -> usize
    requires { length (header_text counts.variables counts.clauses) ≤ length out.old }
    ensures { Wrote 0 (header_text counts.variables counts.clauses) out.old result out.new }
{
    put_line(
        out,
        0,
        b"p cnf",
        &[counts.variables as u64, counts.clauses as u64],
    )
}

// Writes the clauses of line k.
fn write_clauses(sheet: &ReadSheet, k: usize, out: &mut [u8]) -> Result<usize, Refusal>
    requires { k < sheet.now.header.lines }
    ensures { (part_means result ≡ (room_call (file_part (trail_of sheet.now.bytes.now) (suc k)) out.old).answer)
        × (out.new ≡ (room_call (file_part (trail_of sheet.now.bytes.now) (suc k)) out.old).buffer) }
{
    let mut list = [0i32; LIST_NUMBERS];
    let count = line_clauses::put_line(sheet, k, &mut list, 0);
    write_list(out, &list[0..count])
}

// Writes the clauses of a list. A buffer that is long enough whatever the numbers are is written at once; for a shorter one the text is
// made aside first, so that its length is known before the first byte is written.
fn write_list(out: &mut [u8], list: &[i32]) -> Result<usize, Refusal>
    requires { AllBelow 100000 list.now × (length list.now ≤ 4944) }
    ensures { (part_means result ≡ (room_call (numbers_text list.now) out.old).answer)
        × (out.new ≡ (room_call (numbers_text list.now) out.old).buffer) }
{
    if NUMBER_BYTES * list.len() <= out.len() {
        let bytes = put_list(out, 0, list);
        return Ok(bytes);
    }
    let mut text = [0u8; CLAUSES_BYTES];
    let bytes = put_list(&mut text, 0, list);
    put_part(out, &text[0..bytes])
}
