// Sizes of a sheet's clauses before they are written: the numbers of a line's list, and both counts (document 01, "Clauses").

#![tactic(auto)]

pub mod counting;
pub mod sizes;

// A sheet's variables and the clauses of all its lines.
#[derive(Clone, Copy)]
pub struct Counts {
    pub variables: u32,
    pub clauses: u32,
}
