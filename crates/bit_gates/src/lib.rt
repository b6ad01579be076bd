// The gates of one bit of a run: the literals among its inputs, its outputs, and the tables that tie the one to the other.

#![tactic(auto)]

pub mod inputs;
pub mod outputs;
mod tables;
