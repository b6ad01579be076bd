// The report of each line of a trail, and the totals of its lines: definitions and theorems. The code stands above, in `sheet_reports`.

#![tactic(auto)]

use differential::Sixteenths;

// The impossible lines, and the sums of weights and chains, repeats left out.
#[derive(Clone, Copy)]
pub struct Totals {
    pub impossible: u32,
    pub weight: Sixteenths,
    pub chains: u32,
}
