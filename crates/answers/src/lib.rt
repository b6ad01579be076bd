// What calls on a sheet answer: a value or a refusal, and the struct for C.

#![tactic(auto)]

ghost use Rattle.std.specs.Prelude.{◌≡◌};
ghost use Rattle.sheet.specs.Asking.Verdict.{accepted as Verdict·accepted, refused as Verdict·refused};
ghost use Rattle.answers.specs.Answers.{number_of, place_of, count_means, answer_of};

// The first question whose answer is no: what it asks about, and its place where it has one. That is a block for `Check` and `Rest`,
// and a line for the others.
#[derive(Clone, Copy, PartialEq, Eq)]
pub enum Refusal {
    Length,
    Check(usize),
    Mark,
    Width,
    Inputs,
    Lines,
    InputDifferences,
    HeaderRest,
    Kind(usize),
    LaterOperand(usize),
    SameOperands(usize),
    Amount(usize),
    Constant(usize),
    Difference(usize),
    UnusedField(usize),
    Rest(usize),
    NoSuchLine,
    Room,
    Start,
    OtherWidth,
    Names,
    JoinedLines,
    SelfXor(usize),
    Pairs,
    Replies,
    NotOwn,
}

impl Refusal {
    // The question's number in the documents.
    pub fn number(self) -> u32
        ensures { result ≡ number_of self }
    {
        match self {
            Refusal::Length => 1,
            Refusal::Check(_) => 2,
            Refusal::Mark => 3,
            Refusal::Width => 4,
            Refusal::Inputs => 5,
            Refusal::Lines => 6,
            Refusal::InputDifferences => 7,
            Refusal::HeaderRest => 8,
            Refusal::Kind(_) => 9,
            Refusal::LaterOperand(_) => 10,
            Refusal::SameOperands(_) => 11,
            Refusal::Amount(_) => 12,
            Refusal::Constant(_) => 13,
            Refusal::Difference(_) => 14,
            Refusal::UnusedField(_) => 15,
            Refusal::Rest(_) => 16,
            Refusal::NoSuchLine => 17,
            Refusal::Room => 18,
            Refusal::Start => 19,
            Refusal::OtherWidth => 20,
            Refusal::Names => 21,
            Refusal::JoinedLines => 22,
            Refusal::SelfXor(_) => 23,
            Refusal::Pairs => 24,
            Refusal::Replies => 25,
            Refusal::NotOwn => 26,
        }
    }

    // The block or the line, and 0 where there is none.
    pub fn place(self) -> u64
        ensures { result ≡ place_of self }
    {
        match self {
            Refusal::Check(block) | Refusal::Rest(block) => block as u64,
            Refusal::Kind(line)
            | Refusal::LaterOperand(line)
            | Refusal::SameOperands(line)
            | Refusal::Amount(line)
            | Refusal::Constant(line)
            | Refusal::Difference(line)
            | Refusal::UnusedField(line)
            | Refusal::SelfXor(line) => line as u64,
            _ => 0,
        }
    }
}

// What a call answers to C, which takes no enum: the number and place of a refusal, with count 0; or 0, 0 and what the call counts.
#[repr(C)]
#[derive(Clone, Copy)]
pub struct Answer {
    pub number: u32,
    pub place: u64,
    pub count: u64,
}

impl Answer {
    // A call that was made, and what it counts.
    pub fn counted(count: usize) -> Self
        ensures { result ≡ answer_of (Verdict·accepted count) }
    {
        Self {
            number: 0,
            place: 0,
            count: count as u64,
        }
    }

    // A call that was refused.
    pub fn refusing(number: u32, place: u64) -> Self
        ensures { result ≡ answer_of (Verdict·refused number place) }
    {
        Self {
            number,
            place,
            count: 0,
        }
    }

    // The answer of a call that counts.
    pub fn of(answer: Result<usize, Refusal>) -> Self
        ensures { result ≡ answer_of (count_means answer) }
    {
        match answer {
            Ok(count) => Self::counted(count),
            Err(refusal) => Self::refusing(refusal.number(), refusal.place()),
        }
    }
}
