// Whether a report says what the count says.
ghost use Rattle.std.specs.Prelude.{◌≤◌};

use crate::power::digits_of_power;
use differential::{Differential, LineReport};

// Whether a report is right where `count` of the 2^bits operand values fit.
pub fn agrees(d: Differential, bits: u32, report: LineReport, count: u64) -> bool
    requires { (bits ≤ 32) × (d.width ≤ 32) }
{
    let line = d.line;
    let kind = line.kind;
    match report {
        LineReport::Impossible => count == 0,
        LineReport::Certain => is_linear(kind) && count == 1 << bits,
        LineReport::Halves(weight) => is_sum(kind) && is_halved(bits, weight.0, count),
        LineReport::Counted(weight, chains, fitting) => {
            kind == 6 && fitting.0 == count && is_bounded(d.width, weight.0, chains, count)
        }
    }
}

// XORs, rotations and shifts: the kinds that are certain or impossible.
fn is_linear(kind: u32) -> bool {
    match kind {
        1..=4 | 7..=8 => true,
        _ => false,
    }
}

// Adding two words, or subtracting one: the kinds that are halves or impossible.
fn is_sum(kind: u32) -> bool {
    match kind {
        5 | 9 => true,
        _ => false,
    }
}

// Whether the count is 2^(bits - weight).
fn is_halved(bits: u32, weight: u32, count: u64) -> bool
    requires { bits ≤ 32 }
{
    if bits < weight {
        return false;
    }
    count == 1 << (bits - weight)
}

// Whether 2^(16n - w) <= N^16 <= 2^(16n - w + 3c), where N is the number, w the weight and c the chains. By binary digits:
// 2^(16n), the sixteenth power of 2^n, has `all` of them, and 2^(16n - w) has w fewer.
fn is_bounded(n: u32, weight: u32, chains: u32, number: u64) -> bool
    requires { n ≤ 32 }
{
    if number == 0 || 1 << 32 < number {
        return false;
    }
    let all = digits_of_power(1 << n);
    let w = weight as u64;
    if all <= w {
        return false;
    }
    let least = all - w;
    let digits = digits_of_power(number);
    if digits < least {
        return false;
    }
    let above = digits - least;
    let most = 3 * (chains as u64);
    above < most || (above == most && u64::count_ones(number) == 1)
}
