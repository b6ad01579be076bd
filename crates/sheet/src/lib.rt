// Sheets: what the format says (document 01, "The sheet"). Types alone: the code that reads a sheet stands above.

#![tactic(auto)]

// A sheet's form, by the size of its words.
#[derive(Clone, Copy)]
pub enum Form {
    // Words of 32 bits.
    Narrow,
}

// The parts of a sheet: its form, its blocks, the width n, the input count m and the line count L.
#[derive(Clone, Copy)]
pub struct Header {
    pub form: Form,
    pub blocks: usize,
    pub width: u32,
    pub inputs: usize,
    pub lines: usize,
}

// A line's record, as it lies in the file.
#[derive(Clone, Copy)]
pub struct Record {
    pub kind: u32,
    pub amount: u32,
    pub first: usize,
    pub second: usize,
    pub zero: u32,
    pub constant: u64,
    pub difference: u64,
}

// Which questions are asked: sealing leaves out those of the checks, and asks 23 of each line.
#[derive(Clone, Copy)]
pub enum Mode {
    Read,
    Seal,
}
