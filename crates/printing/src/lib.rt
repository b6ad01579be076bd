// What the programs do: they read a sheet and print a text of it, part by part (document 01, "The programs"). No text is made here:
// `texts` makes it.
#![tactic(auto)]

ghost use Rattle.std.specs.Prelude.{◌≡◌, ◌++◌, ◌≤◌, length, take, drop};
ghost use Rattle.text_parts.specs.Parts.{part_means};
ghost use Rattle.printing.specs.Texts.{text_call, HasRoom};

use answers::Refusal;
use reading::read;
use sheet_input::read_input;
use std::io;
use std::io::{Read, Write};
use texts::{REFUSAL_BYTES, clause_text, refusal_text, report_text};

// One byte more than any sheet has: a longer input is refused for its length, whatever follows.
const INPUT_BYTES: usize = 4609;

// Parts are gathered so that there are few writes.
const OUTPUT_BYTES: usize = 65536;

// As much as any part of a text takes: a part that is lent this much is never refused for its room.
const PART_BYTES: usize = 34608;

// The report of every line and the totals, or the clauses of all lines after their header.
#[derive(Clone, Copy)]
pub enum Text {
    Report,
    Clauses,
}

// Prints a text of the sheet that is read, or the refusal. Where a read fails there is no sheet, and nothing is printed.
pub fn print(text: Text, input: &mut impl Read, output: &mut impl Write) -> io::Result<()> {
    let mut sheet = [0u8; INPUT_BYTES];
    let n = read_input(input, &mut sheet)?;
    print_sheet(output, text, &sheet[0..n])
}

// Prints a text of a sheet, or the refusal.
fn print_sheet(output: &mut impl Write, text: Text, sheet: &[u8]) -> io::Result<()> {
    match read(sheet) {
        Ok(header) => print_parts(output, text, sheet, header.lines),
        Err(refusal) => print_refusal(output, refusal),
    }
}

// Prints the parts of a text: one for each line, and one more. A refusal is printed and ends it, and so does a write that fails: after
// a part that was not written whole nothing may follow, since a literal that is cut off and joins the next text would be another clause.
fn print_parts(output: &mut impl Write, text: Text, sheet: &[u8], lines: usize) -> io::Result<()>
    requires { lines ≤ 248 }
{
    let mut out = [0u8; OUTPUT_BYTES];
    let mut end = 0;
    for part in 0..=lines {
        match gather(text, sheet, part, &mut out, end) {
            Ok(bytes) => end = make_room(output, &out, end + bytes)?,
            Err(refusal) => return print_end(output, &out[0..end], refusal),
        }
    }
    output.write_all(&out[0..end])
}

// How much is gathered, once there is room for another part behind it: it is written out where there may be too little.
fn make_room(output: &mut impl Write, out: &[u8], end: usize) -> io::Result<usize>
    requires { end ≤ length out.now }
    ensures { HasRoom end result }
{
    if end <= OUTPUT_BYTES - PART_BYTES {
        return Ok(end);
    }
    output.write_all(&out[0..end])?;
    Ok(0)
}

// Writes a part of a text behind what is gathered.
fn gather(
    text: Text,
    sheet: &[u8],
    part: usize,
    out: &mut [u8],
    end: usize,
) -> Result<usize, Refusal>
    requires { end ≤ length out.old }
    ensures { (part_means result ≡ (text_call text sheet.now part (drop end out.old)).answer)
        × (out.new ≡ take end out.old ++ (text_call text sheet.now part (drop end out.old)).buffer) }
{
    part_text(text, sheet, part, &mut out[end..])
}

// Writes a part of a text.
fn part_text(text: Text, sheet: &[u8], part: usize, out: &mut [u8]) -> Result<usize, Refusal>
    ensures { (part_means result ≡ (text_call text sheet.now part out.old).answer)
        × (out.new ≡ (text_call text sheet.now part out.old).buffer) }
{
    match text {
        Text::Report => report_text(sheet, part, out),
        Text::Clauses => clause_text(sheet, part, out),
    }
}

// Prints what was gathered before a refusal, then the refusal.
fn print_end(output: &mut impl Write, gathered: &[u8], refusal: Refusal) -> io::Result<()> {
    output.write_all(gathered)?;
    print_refusal(output, refusal)
}

// Prints a refusal.
fn print_refusal(output: &mut impl Write, refusal: Refusal) -> io::Result<()> {
    let mut text = [0u8; REFUSAL_BYTES];
    let bytes = refusal_text(refusal.number(), refusal.place(), &mut text);
    output.write_all(&text[0..bytes])
}
