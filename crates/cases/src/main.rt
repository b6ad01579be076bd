// Runs cases on the calls and on the programs' texts, and prints what comes back.
//
// Standard input has a case on each line. A line that begins with `#` names the subject of those after it:
// - `#sheets`: reading and sealing, as `sheet_cases` says;
// - `#reports`: line reports, totals and the report buffer, as `report_cases` says;
// - `#clauses`: two runs and clause lists, as `clause_cases` says;
// - `#joins`: joining, as `join_cases` says;
// - `#differences`: changing a stated difference and trying a change, as `change_cases` says;
// - `#lists`: a list of changes in one call, as `change_list_cases` says;
// - `#indexes`: a sheet's index, and changes that are lent index and report, as `index_cases` says;
// - `#texts`: what the programs print, as `program_texts` says.
#![tactic(auto)]

mod program_texts;

use crate::program_texts::run_text;
use sheet_input::read_input;
use std::io;
use std::io::Write;
use std::rt::Files;

// Room for all cases.
const CASES_BYTES: usize = 458752;

fn main(rt: HostRuntime) -> io::Result<()> {
    let mut input = [0u8; CASES_BYTES];
    let n = read_input(&mut rt.stdin(), &mut input)?;
    run_lines(&rt, &mut rt.stdout(), &input[..n])
}

// Goes through the lines of the input.
fn run_lines<R: Files + Eprint>(rt: &R, out: &mut impl Write, input: &[u8]) -> io::Result<()> {
    let mut subject = b's';
    for line in input.split(|byte| *byte == b'\n') {
        subject = run_line(rt, out, line, subject)?;
    }
    Ok(())
}

// Answers a case on a subject, or takes up another: the letter after `#`. Tells the next line's subject.
fn run_line<R: Files + Eprint>(
    rt: &R,
    out: &mut impl Write,
    line: &[u8],
    subject: u8,
) -> io::Result<u8> {
    if line.len() < 2 {
        return Ok(subject);
    }
    if line[0] == b'#' {
        return Ok(line[1]);
    }
    run_case(rt, out, line, subject)?;
    Ok(subject)
}

// Answers a case on a subject.
fn run_case<R: Files + Eprint>(
    rt: &R,
    out: &mut impl Write,
    line: &[u8],
    subject: u8,
) -> io::Result<()> {
    match subject {
        b's' => sheet_cases::run_case(out, line),
        b'r' => report_cases::run_case(out, line),
        b'c' => clause_cases::run_case(out, line),
        b'j' => join_cases::run_case(out, line),
        b'd' => change_cases::run_case(out, line),
        b'l' => change_list_cases::run_case(out, line),
        b'i' => index_cases::run_case(out, line),
        _ => run_text(rt, out, line),
    }
}
