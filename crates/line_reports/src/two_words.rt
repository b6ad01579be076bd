// Adding two words: kind 5, and kind 9 by the addition that turns it back.
ghost use Rattle.std.specs.Prelude.{◌≡◌, ◌≤◌};
ghost use Rattle.std.specs.Int.Bits.{bit_or, bit_xor};
ghost use Rattle.differential.specs.TwoWords.{words_impossible, words_weight};
ghost use Rattle.differential.specs.Report.{report_means, words_report};

use arithmetic::mask;
use differential::{LineReport, WholeBits};

// Halves with their weight, or impossible.
pub(crate) fn words_report(n: u32, alpha: u64, beta: u64, gamma: u64) -> LineReport
    requires { (2 ≤ n) × (n ≤ 64) }
    ensures { report_means result ≡ words_report n alpha beta gamma }
{
    if clash(n, alpha, beta, gamma) {
        LineReport::Impossible
    } else {
        LineReport::Halves(weight(n, alpha, beta, gamma))
    }
}

// Whether at some position below n the bits one place below are all equal and the parity of the bits there differs from them.
fn clash(n: u32, alpha: u64, beta: u64, gamma: u64) -> bool
    requires { (1 ≤ n) × (n ≤ 64) }
    ensures { result ≡ words_impossible n alpha beta gamma }
{
    let unequal = unequal_bits(alpha << 1, beta << 1, gamma << 1) & mask(n);
    let odd = (alpha ^ beta ^ gamma ^ (alpha << 1)) & mask(n);
    (odd | unequal) != unequal
}

// The positions at which three words' bits are not all equal.
fn unequal_bits(x: u64, y: u64, z: u64) -> u64
    ensures { result ≡ bit_or (bit_xor x y) (bit_xor y z) }
{
    (x ^ y) | (y ^ z)
}

// The number of positions below n - 1 at which the three differences' bits are not all equal.
fn weight(n: u32, alpha: u64, beta: u64, gamma: u64) -> WholeBits
    requires { (2 ≤ n) × (n ≤ 64) }
    ensures { result.0 ≡ words_weight n alpha beta gamma }
{
    WholeBits(u64::count_ones(unequal_bits(alpha, beta, gamma) & mask(n - 1)))
}
