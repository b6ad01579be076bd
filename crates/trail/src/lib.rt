// What a trail's line is. A type alone: the word that a line makes is worked out in `line_words`.

#![tactic(auto)]

// A line: the kind's number, the amount, the two operands' words, the constant and the stated difference.
#[derive(Clone, Copy)]
pub struct Line {
    pub kind: u32,
    pub amount: u32,
    pub first: usize,
    pub second: usize,
    pub constant: u64,
    pub difference: u64,
}
