// One differential: its report held against the count.
use crate::line_sheet::{differential_of, report_of};
use crate::rows::print_report;
use answers::Refusal;
use brute_force::agree::agrees;
use brute_force::count::{count_fitting, operand_bits};
use case_text::parse::number;
use case_text::print::print_refused;
use differential::{Differential, LineReport};
use std::io;
use std::io::Write;

// The report, the number of operand values that fit, and whether the two agree.
#[derive(Clone, Copy)]
pub struct Comparison {
    pub report: LineReport,
    pub count: u64,
    pub right: bool,
}

// Asks for the report, and counts, unless there are too many operand values to count.
pub fn compare(d: Differential) -> Result<Option<Comparison>, Refusal> {
    let line = d.line;
    if 32 < d.width || d.width < line.amount {
        return Ok(None);
    }
    let bits = operand_bits(d);
    if 32 < bits {
        return Ok(None);
    }
    let report = report_of(d)?;
    let count = count_fitting(d, bits);
    Ok(Some(Comparison {
        report,
        count,
        right: agrees(d, bits, report, count),
    }))
}

// Answers a case `KIND WIDTH AMOUNT CONSTANT FIRST SECOND DIFFERENCE`: the report, `count` with the count, and the verdict.
pub fn run_one(out: &mut impl Write, line: &[u8], from: usize) -> io::Result<()> {
    match compare(differential_in(line, from)) {
        Ok(Some(comparison)) => print_comparison(out, comparison),
        Ok(None) => write!(out, " not counted"),
        Err(refusal) => print_refused(out, refusal.number(), refusal.place()),
    }
}

// The report, the count and the verdict as text.
fn print_comparison(out: &mut impl Write, comparison: Comparison) -> io::Result<()> {
    print_report(out, comparison.report)?;
    let verdict = if comparison.right { "right" } else { "wrong" };
    write!(out, ", count {}, {verdict}", comparison.count)
}

// The differential that a line's numbers are.
fn differential_in(line: &[u8], from: usize) -> Differential {
    let kind = number(line, from);
    let width = number(line, kind.next);
    let amount = number(line, width.next);
    let constant = number(line, amount.next);
    let first = number(line, constant.next);
    let second = number(line, first.next);
    let difference = number(line, second.next);
    differential_of(
        byte_of(kind.value),
        byte_of(width.value),
        byte_of(amount.value),
        constant.value as u64,
        first.value as u64,
        second.value as u64,
        difference.value as u64,
    )
}

// A number's lowest byte.
pub fn byte_of(value: usize) -> u32 {
    (value % 256) as u32
}
