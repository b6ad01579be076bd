// All differentials of a kind and a width.
ghost use Rattle.std.specs.Prelude.{◌≤◌};

use crate::line_sheet::differential_of;
use crate::one::{byte_of, compare};
use crate::tally::{Tally, empty, print_tally, with_outcome};
use brute_force::count::largest;
use case_text::parse::number;
use differential::Differential;
use std::io;
use std::io::Write;

// Answers a case `KIND WIDTH`.
pub fn run_every(out: &mut impl Write, line: &[u8], from: usize) -> io::Result<()> {
    let kind = number(line, from);
    let width = number(line, kind.next);
    let n = byte_of(width.value);
    if 8 < n {
        return write!(out, " not counted");
    }
    print_tally(out, every(byte_of(kind.value), n))
}

// The tally of them all, by number: the stated difference in the lowest n bits, the first operand's difference in the n above
// them, and above these the part that the kind names: the other operand's difference, the constant or the amount.
fn every(kind: u32, n: u32) -> Tally
    requires { n ≤ 8 }
{
    let start = parts_start(kind) << (2 * n);
    let end = parts_end(kind, n) << (2 * n);
    let mut tally = empty();
    for next in start..end {
        tally = with_outcome(tally, compare(numbered(kind, n, next)));
    }
    tally
}

// The smallest part: amounts start at 1, words at 0.
fn parts_start(kind: u32) -> u64 {
    match kind {
        3..=4 | 7..=8 => 1,
        _ => 0,
    }
}

// What the parts are below: amounts the width, words 2^n.
fn parts_end(kind: u32, n: u32) -> u64
    requires { n ≤ 8 }
{
    match kind {
        3..=4 | 7..=8 => n as u64,
        _ => 1 << n,
    }
}

// The differential of a number.
fn numbered(kind: u32, n: u32, number: u64) -> Differential
    requires { n ≤ 8 }
{
    let part = number >> (2 * n);
    let first = (number >> n) & largest(n);
    let difference = number & largest(n);
    match kind {
        1 | 5 | 9 => differential_of(kind, n, 0, 0, first, part, difference),
        3..=4 | 7..=8 => differential_of(kind, n, (part % 256) as u32, 0, first, 0, difference),
        _ => differential_of(kind, n, 0, part, first, 0, difference),
    }
}
