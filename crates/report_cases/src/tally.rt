// How the reports of many differentials came out.
use crate::one::Comparison;
use crate::rows::{Row, row_of};
use answers::Refusal;
use case_text::checksum::with_number;
use differential::LineReport;
use std::io;
use std::io::Write;
use std::num::wrapping_add_u64;

// How many there were, how many impossible, how many not as the count says; the sums of their numbers, modulo 2^64; and a
// checksum of all numbers in their order.
#[derive(Clone, Copy)]
pub struct Tally {
    differentials: u64,
    impossible: u64,
    wrong: u64,
    weight: u64,
    chains: u64,
    fitting: u64,
    checksum: u64,
}

// The tally of no differentials.
pub fn empty() -> Tally {
    Tally {
        differentials: 0,
        impossible: 0,
        wrong: 0,
        weight: 0,
        chains: 0,
        fitting: 0,
        checksum: 0,
    }
}

// The tally with one differential more. One without a report counts as impossible and wrong.
pub fn with_outcome(tally: Tally, outcome: Result<Option<Comparison>, Refusal>) -> Tally {
    match outcome {
        Ok(Some(comparison)) => with_row(tally, row_of(comparison.report), comparison.right),
        _ => with_row(tally, row_of(LineReport::Impossible), false),
    }
}

// The tally with one report's numbers more.
fn with_row(tally: Tally, row: Row, right: bool) -> Tally {
    Tally {
        differentials: wrapping_add_u64(tally.differentials, 1),
        impossible: wrapping_add_u64(tally.impossible, (row.number == 0) as u64),
        wrong: wrapping_add_u64(tally.wrong, !right as u64),
        weight: wrapping_add_u64(tally.weight, row.weight),
        chains: wrapping_add_u64(tally.chains, row.chains),
        fitting: wrapping_add_u64(tally.fitting, row.fitting),
        checksum: with_numbers(tally.checksum, row),
    }
}

// The checksum with one report's numbers more.
fn with_numbers(checksum: u64, row: Row) -> u64 {
    let number = with_number(checksum, row.number);
    let weight = with_number(number, row.weight);
    let chains = with_number(weight, row.chains);
    with_number(chains, row.fitting)
}

// The tally as text.
pub fn print_tally(out: &mut impl Write, tally: Tally) -> io::Result<()> {
    let Tally {
        differentials,
        impossible,
        wrong,
        weight,
        chains,
        fitting,
        checksum,
    } = tally;
    write!(
        out,
        " {differentials}, impossible {impossible}, wrong {wrong}, weight {weight}, chains {chains}, \
         N {fitting}, checksum {checksum}"
    )
}
