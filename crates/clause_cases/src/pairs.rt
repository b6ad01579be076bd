// Satisfying assignments and following starting values of a small sheet, each counted over all there are.
use crate::SHEET_BYTES;
use crate::following::print_following;
use crate::print::print_counts;
use crate::satisfying::count_satisfying;
use case_text::parse::take_sheet;
use case_text::print::print_refused;
use clauses::clause_counts;
use std::io;
use std::io::Write;

// Answers a case `SHEET`.
pub fn run_pairs(out: &mut impl Write, line: &[u8], from: usize) -> io::Result<()> {
    let mut sheet = [0u8; SHEET_BYTES];
    let length = take_sheet(&mut sheet, line, from);
    print_pairs(out, &sheet[0..length])
}

// Both counts of a sheet, then the pairs.
fn print_pairs(out: &mut impl Write, sheet: &[u8]) -> io::Result<()> {
    match clause_counts(sheet) {
        Ok(counts) => {
            print_counts(out, counts)?;
            print_small(out, sheet, counts.variables)
        }
        Err(refusal) => print_refused(out, refusal.number(), refusal.place()),
    }
}

// The pairs of a sheet with so many variables, where there are few enough to count.
fn print_small(out: &mut impl Write, sheet: &[u8], variables: u32) -> io::Result<()> {
    let Ok(header) = reading::read(sheet) else {
        return Ok(());
    };
    if 20 < variables {
        return write!(out, ", not counted");
    }
    let satisfying = count_satisfying(sheet, header.lines, variables);
    write!(out, ", satisfying {satisfying}")?;
    print_following(out, sheet)
}
