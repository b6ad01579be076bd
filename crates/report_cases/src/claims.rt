// Claims: a line's report and a count of operand values, both named by a case and held against each other. Reports that their count
// does not bear out are among them, so that a comparison that calls every report right is found out.
use crate::line_sheet::differential_of;
use crate::one::byte_of;
use brute_force::agree::agrees;
use brute_force::count::operand_bits;
use case_text::parse::number;
use differential::{Differential, Fitting, LineReport, Sixteenths, WholeBits};
use std::io;
use std::io::Write;

// Answers a case `KIND WIDTH REPORT WEIGHT CHAINS N COUNT`, where REPORT is the report's number, and the weight of halves is in bits.
pub fn run_claim(out: &mut impl Write, line: &[u8], from: usize) -> io::Result<()> {
    let kind = number(line, from);
    let width = number(line, kind.next);
    let report = number(line, width.next);
    let weight = number(line, report.next);
    let chains = number(line, weight.next);
    let fitting = number(line, chains.next);
    let count = number(line, fitting.next);
    print_claim(
        out,
        differential_of(byte_of(kind.value), byte_of(width.value), 0, 0, 0, 0, 0),
        claimed(
            byte_of(report.value),
            small(weight.value),
            small(chains.value),
            fitting.value as u64,
        ),
        count.value as u64,
    )
}

// The report of these numbers.
fn claimed(report: u32, weight: u32, chains: u32, fitting: u64) -> LineReport {
    match report {
        0 => LineReport::Impossible,
        1 => LineReport::Certain,
        2 => LineReport::Halves(WholeBits(weight)),
        _ => LineReport::Counted(Sixteenths(weight), chains, Fitting(fitting)),
    }
}

// A number's lowest sixteen bits.
fn small(value: usize) -> u32 {
    (value % 65536) as u32
}

// Whether a report agrees with a count.
fn print_claim(
    out: &mut impl Write,
    d: Differential,
    report: LineReport,
    count: u64,
) -> io::Result<()> {
    if 32 < d.width {
        return write!(out, " not counted");
    }
    let bits = operand_bits(d);
    if 32 < bits {
        return write!(out, " not counted");
    }
    if agrees(d, bits, report, count) {
        return write!(out, " right");
    }
    write!(out, " wrong")
}
