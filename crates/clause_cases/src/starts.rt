// Two runs from given words.
use crate::SHEET_BYTES;
use answers::Refusal;
use case_text::parse::{number, take_sheet, take_words};
use case_text::print::print_refused;
use runs::two_runs;
use sheet_runs::RunsOutcome;
use std::io;
use std::io::Write;

// More words than any sheet has inputs.
const MOST_WORDS: usize = 16;

// Answers a case `COUNT WORD WORD .. SHEET`.
pub fn run_start(out: &mut impl Write, line: &[u8], from: usize) -> io::Result<()> {
    let size = number(line, from);
    let count = size.value;
    if MOST_WORDS < count {
        return write!(out, " too many");
    }
    let mut words = [0u64; MOST_WORDS];
    print_start(out, line, size.next, &mut words[0..count])
}

// What is answered for as many words as there is room for, and the sheet after them.
fn print_start(
    out: &mut impl Write,
    line: &[u8],
    from: usize,
    words: &mut [u64],
) -> io::Result<()> {
    let next = take_words(words, line, from);
    let mut sheet = [0u8; SHEET_BYTES];
    let length = take_sheet(&mut sheet, line, next);
    print_runs(out, two_runs(&sheet[0..length], words))
}

// The answer of `runs::two_runs`: ` follows`, ` disagree LINE BIT`, or a refusal.
fn print_runs(out: &mut impl Write, answer: Result<RunsOutcome, Refusal>) -> io::Result<()> {
    match answer {
        Ok(outcome) => print_outcome(out, outcome),
        Err(refusal) => print_refused(out, refusal.number(), refusal.place()),
    }
}

// What two runs come to.
fn print_outcome(out: &mut impl Write, outcome: RunsOutcome) -> io::Result<()> {
    match outcome {
        RunsOutcome::Follows => write!(out, " follows"),
        RunsOutcome::Disagree(line, bit) => write!(out, " disagree {line} {bit}"),
    }
}
