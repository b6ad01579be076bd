// Text for the programs that run cases: numbers and sheets taken out of a case, answers printed, and a checksum of numbers.
#![tactic(auto)]

pub mod checksum;
pub mod parse;
pub mod print;
