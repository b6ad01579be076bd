// The two runs of a sheet that was read (document 01, "Two runs").

#![tactic(auto)]

pub mod lines;
pub mod start;

// The words of a run: 8 inputs and 248 lines at most.
type Words = [u64; 256];

// The runs follow the trail, or disagree with it, first in a line and there lowest in a bit.
#[derive(Clone, Copy)]
pub enum RunsOutcome {
    Follows,
    Disagree(usize, u32),
}
