// What one chain costs: its length K, its numbers T and p, and the logarithm (document 01, "Line reports").

#![tactic(auto)]

pub mod chain_logarithm;

ghost use Rattle.std.specs.Prelude.{◌≡◌, true, ◌<◌, ◌≤◌, ◌^◌};
ghost use Rattle.differential.specs.Constant.{quiet, is_chain, chain_t, chain_p};
ghost use Rattle.differential.specs.Weight.{chain_cost};
ghost use Rattle.chain_costs.specs.Ends.{Not000};

use crate::chain_logarithm::logarithm;
use arithmetic::{bit, mask};
use differential::{Sixteenths, WholeBits};
use units::in_sixteenths;

// A one at each position whose state is not 000.
pub fn not_000(u: u64, v: u64) -> u64
    ensures { Not000 u v result }
{
    (u << 1) | (v << 1) | (u ^ v)
}

// 16K - A, of the chain that ends at position i.
pub fn chain_cost(a: u64, u: u64, v: u64, i: u32) -> Sixteenths
    requires { (is_chain u v i ≡ true) × (i < 32) × (a < 2 ^ 32) × (0 < chain_p a u v (quiet u v i) i) }
    ensures { result.0 ≡ chain_cost a u v i }
{
    let k = chain_length(u, v, i);
    let whole = in_sixteenths(WholeBits(k));
    let known = logarithm(chain_number(a, u, v, k, i));
    Sixteenths(whole.0 - known.0)
}

// K, of the chain that ends at position i: the states directly below it that are 000.
fn chain_length(u: u64, v: u64, i: u32) -> u32
    requires { (is_chain u v i ≡ true) × (i < 32) }
    ensures { (result ≡ quiet u v i) × (1 ≤ result) × (result ≤ i) }
{
    i + u64::leading_zeros(not_000(u, v) & mask(i)) - 64
}

// p: T if a[i-1] XOR u[i] XOR v[i] is 1, else 2^K - T.
fn chain_number(a: u64, u: u64, v: u64, k: u32, i: u32) -> u32
    requires { (1 ≤ k) × (k ≤ i) × (i < 32) × (a < 2 ^ 32) }
    ensures { result ≡ chain_p a u v k i }
{
    let t = chain_t(a as u32, k, i);
    if bit((a << 1) ^ u ^ v, i) {
        t
    } else {
        (1 << k) - t
    }
}

// T: the K-bit number a[i-2]..a[i-K-1], plus a[i-K-2]. Bit j of a shifted up by two is a[j-2]; the shift loses a[31] and a[30],
// and T begins at a[29] at most.
fn chain_t(a: u32, k: u32, i: u32) -> u32
    requires { (1 ≤ k) × (k ≤ i) × (i < 32) }
    ensures { (result ≡ chain_t a k i) × (result ≤ 2 ^ k) }
{
    let shifted = a << 2;
    ((shifted >> (i + 1 - k)) & ((1 << k) - 1)) + (shifted >> (i - k)) % 2
}
