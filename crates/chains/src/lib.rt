// Adding a constant: kind 6. Its weight, by halvings and chains (document 01, "Line reports").

#![tactic(auto)]

ghost use Rattle.std.specs.Prelude.{◌≡◌, ◌*◌, ◌<◌, ◌≤◌, ◌^◌};
ghost use Rattle.words.specs.Below.{total};
ghost use Rattle.differential.specs.Constant.{constant_fitting, halvings as Constant·halvings, chains};
ghost use Rattle.differential.specs.Unit.{unit};
ghost use Rattle.differential.specs.Weight.{chain_cost};
ghost use Rattle.differential.specs.Report.{report_means, constant_report};
ghost use Rattle.chain_costs.specs.Ends.{ChainEnds};

use arithmetic::mask;
use carry_pairs::fitting;
use chain_costs::chain_logarithm::highest_one;
use chain_costs::{chain_cost, not_000};
use differential::{LineReport, Sixteenths, WholeBits};
use units::in_sixteenths;

// Counted with weight, chains and the number of fitting words, or impossible where there is none.
pub fn constant_report(n: u32, a: u64, u: u64, v: u64) -> LineReport
    requires { (1 ≤ n) × (n ≤ 32) × (a < 2 ^ n) × (u < 2 ^ n) × (v < 2 ^ n) }
    ensures { report_means result ≡ constant_report n a u v (constant_fitting n a u v) }
{
    let number = fitting(n, a, u, v);
    if number.0 == 0 {
        return LineReport::Impossible;
    }
    let chains = all_chains(n, a, u, v);
    let cost = chains.cost;
    let halved = in_sixteenths(halvings(n, u, v));
    LineReport::Counted(Sixteenths(halved.0 + cost.0), chains.number, number)
}

// H, the number of positions below n with u's and v's bits one place below different.
fn halvings(n: u32, u: u64, v: u64) -> WholeBits
    requires { (1 ≤ n) × (n ≤ 32) }
    ensures { (result.0 ≡ Constant·halvings n u v) × (result.0 ≤ n) }
{
    WholeBits(u64::count_ones(((u ^ v) << 1) & mask(n)))
}

// The cost of all chains, and how many there are.
#[derive(Clone, Copy)]
struct Chains {
    cost: Sixteenths,
    number: u32,
}

// The chains of all positions below n, from the highest down. Most positions end no chain, so that it goes by the ones of a
// word, each of which it takes away, and not by a range.
fn all_chains(n: u32, a: u64, u: u64, v: u64) -> Chains
    requires { (1 ≤ n) × (n ≤ 32) × (a < 2 ^ n) × (v < 2 ^ n) × (0 < constant_fitting n a u v) }
    ensures { (result.cost.0 ≡ total n (chain_cost a u v)) × (result.number ≡ chains n u v) × (result.cost.0 ≤ unit * n) }
{
    let ends = chain_ends(n, u, v);
    let mut cost = 0;
    let mut rest = ends;
    while rest != 0 {
        let i = highest_one(rest as u32);
        let next = chain_cost(a, u, v, i);
        cost += next.0;
        rest &= mask(i);
    }
    Chains {
        cost: Sixteenths(cost),
        number: u64::count_ones(ends),
    }
}

// A one at each position below n where a chain ends: a state 11* there, and a state 000 directly below it.
fn chain_ends(n: u32, u: u64, v: u64) -> u64
    requires { (1 ≤ n) × (n ≤ 32) }
    ensures { ChainEnds n u v result }
{
    let is_11 = (u << 1) & (v << 1);
    (is_11 ^ (is_11 & (not_000(u, v) << 1))) & mask(n)
}
