// The questions of every block: 2, of its check, and 16, of what is no line's (document 01, "Questions, in order").

#![tactic(auto)]

pub mod checks;
pub mod rest;
