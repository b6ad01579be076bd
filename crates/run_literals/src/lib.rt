// One run of one line on plain numbers, and the literals of its words and carries (document 01, "Clauses").

#![tactic(auto)]

pub mod kinds;
pub mod literals;

ghost use Rattle.run_literals.specs.Proper.{ProperRun};

use trail::Line;

// One run of the line that makes `word`. The ones of a difference negate the literals of a word: of the first operand, the second,
// and the word that is made. In the first run all three are 0. The carry into bit i is variable `carries` + i.
#[derive(Clone, Copy)]
pub struct LineRun {
    pub width: u32,
    pub word: usize,
    pub line: Line,
    pub first: u64,
    pub second: u64,
    pub made: u64,
    pub carries: u32,
    pub ghost proper: { ProperRun width word line first second carries },
}
