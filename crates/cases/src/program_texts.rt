// What the programs `trail_report` and `trail_clauses` print, of several sheets.
//
// A case is a line `TEXT FILE`, and FILE is the name of a sheet. After the case its text is printed: the `report` of the sheet, its
// `clauses`, or the `header` of these. Of a text of megabytes the `digest` is printed instead: a checksum of all parts of the clause
// file, in order, and of the refusals of those past the last.
use answers::Refusal;
use case_text::checksum::{with_bytes, with_number};
use case_text::parse::find;
use printing::Text;
use sheet_input::read_input;
use std::io::{Read, Write};
use std::rt::Files;
use std::{fs, io, str};
use texts::clause_text;

// One byte more than any sheet has.
const INPUT_BYTES: usize = 4609;

// As much as any part of the clause file takes.
const PART_BYTES: usize = 34608;

// Prints a case and its text.
pub fn run_text<R: Files + Eprint>(rt: &R, out: &mut impl Write, case: &[u8]) -> io::Result<()> {
    out.write_all(case)?;
    writeln!(out, ":")?;
    let blank = find(case, 0, b' ');
    if blank < case.len() {
        print_named(rt, out, case[0], &case[blank + 1..])?;
    }
    Ok(())
}

// Prints what a letter stands for, of the sheet of a name. Where there is no such file it says so on standard error.
fn print_named<R: Files + Eprint>(
    rt: &R,
    out: &mut impl Write,
    letter: u8,
    name: &[u8],
) -> io::Result<()> {
    let Ok(path) = str::from_utf8(name) else {
        return eprintln!(rt; "a name that is no text");
    };
    match fs::open(rt, path) {
        Ok(mut file) => print_opened(out, letter, &mut file),
        Err(error) => eprintln!(rt; "{path}: {error}"),
    }
}

fn print_opened(out: &mut impl Write, letter: u8, file: &mut impl Read) -> io::Result<()> {
    match letter {
        b'r' => printing::print(Text::Report, file, out),
        b'c' => printing::print(Text::Clauses, file, out),
        b'h' => print_header(out, file),
        _ => print_digest(out, file),
    }
}

// Prints the first part of a sheet's clause file.
fn print_header(out: &mut impl Write, file: &mut impl Read) -> io::Result<()> {
    let mut input = [0u8; INPUT_BYTES];
    let n = read_input(file, &mut input)?;
    let mut part = [0u8; PART_BYTES];
    let answer = clause_text(&input[..n], 0, &mut part);
    print_part(out, answer, &part)
}

// Prints a part where it was written.
fn print_part(out: &mut impl Write, answer: Result<usize, Refusal>, part: &[u8]) -> io::Result<()> {
    if let Ok(bytes) = answer {
        if bytes <= part.len() {
            out.write_all(&part[0..bytes])?;
        }
    }
    Ok(())
}

// Prints the checksum of a sheet's clause file.
fn print_digest(out: &mut impl Write, file: &mut impl Read) -> io::Result<()> {
    let mut input = [0u8; INPUT_BYTES];
    let n = read_input(file, &mut input)?;
    writeln!(out, "{}", digest(&input[..n]))
}

// The checksum of all parts that a clause file can have and one more, which every sheet refuses.
fn digest(sheet: &[u8]) -> u64 {
    let mut out = [0u8; PART_BYTES];
    let mut checksum = 1;
    for part in 0..250 {
        let answer = clause_text(sheet, part, &mut out);
        checksum = with_part(checksum, answer, &out);
    }
    checksum
}

// The checksum with one part more. A refusal counts as a number that is no byte.
fn with_part(checksum: u64, answer: Result<usize, Refusal>, out: &[u8]) -> u64 {
    match answer {
        Ok(bytes) => with_first(checksum, out, bytes),
        Err(refusal) => with_number(checksum, 1000 + refusal.number() as u64),
    }
}

// The checksum with a buffer's first bytes.
fn with_first(checksum: u64, out: &[u8], count: usize) -> u64 {
    if count <= out.len() {
        return with_bytes(checksum, &out[0..count], 0);
    }
    0
}
