// One line's differential: what can be said of it (document 01, "Line reports"). Types alone: the code stands above.

#![tactic(auto)]

use trail::Line;

// A line's differential: the width n, the line, and the differences of the words that it names.
#[derive(Clone, Copy)]
pub struct Differential {
    pub width: u32,
    pub line: Line,
    pub first: u64,
    pub second: u64,
}

// A number of whole bits.
#[derive(Clone, Copy)]
pub struct WholeBits(pub u32);

// A number of sixteenths of a bit.
#[derive(Clone, Copy)]
pub struct Sixteenths(pub u32);

// How many words fit: document 01's N.
#[derive(Clone, Copy)]
pub struct Fitting(pub u64);

// A line's report: halves with their weight; counted with weight, chains and the number of fitting words.
#[derive(Clone, Copy)]
pub enum LineReport {
    Impossible,
    Certain,
    Halves(WholeBits),
    Counted(Sixteenths, u32, Fitting),
}
