// A report's numbers, as in the report buffer, and as text.
use differential::{LineReport, WholeBits};
use std::io;
use std::io::Write;
use units::in_sixteenths;

#[derive(Clone, Copy)]
pub struct Row {
    pub number: u64,
    pub weight: u64,
    pub chains: u64,
    pub fitting: u64,
}

// The numbers of a report; what does not apply is 0.
pub fn row_of(report: LineReport) -> Row {
    match report {
        LineReport::Impossible => numbers(0, 0, 0, 0),
        LineReport::Certain => numbers(1, 0, 0, 0),
        LineReport::Halves(bits) => numbers(2, sixteenths_of(bits), 0, 0),
        LineReport::Counted(weight, chains, fitting) => {
            numbers(3, weight.0 as u64, chains as u64, fitting.0)
        }
    }
}

fn numbers(number: u64, weight: u64, chains: u64, fitting: u64) -> Row {
    Row {
        number,
        weight,
        chains,
        fitting,
    }
}

// Whole bits in sixteenths; more bits than a report can have are the largest number.
fn sixteenths_of(bits: WholeBits) -> u64 {
    if 65535 < bits.0 {
        return u64::MAX;
    }
    let weight = in_sixteenths(bits);
    weight.0 as u64
}

// A report as ` NAME WEIGHT CHAINS N`.
pub fn print_report(out: &mut impl Write, report: LineReport) -> io::Result<()> {
    let row = row_of(report);
    let name = match row.number {
        0 => "impossible",
        1 => "certain",
        2 => "halves",
        _ => "counted",
    };
    write!(out, " {name} {} {} {}", row.weight, row.chains, row.fitting)
}
