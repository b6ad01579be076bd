// The brute-force count that reports are held against, and whether a report agrees with it.

#![tactic(auto)]

pub mod agree;
pub mod count;
mod power;
