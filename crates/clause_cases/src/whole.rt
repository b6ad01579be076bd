// All lists of a sheet, by a checksum of their numbers.
use crate::SHEET_BYTES;
use crate::print::print_counts;
use case_text::checksum::with_number;
use case_text::parse::take_sheet;
use case_text::print::print_refused;
use clauses::{clause_counts, line_list};
use literal_text::magnitude;
use std::io;
use std::io::Write;
use std::num::wrapping_add_u64;

// The lines of the longest sheet, and the numbers of the longest list.
const MOST_LINES: usize = 248;

const LIST_NUMBERS: usize = 4944;

// How many numbers there were, and a checksum of them in their order.
#[derive(Clone, Copy)]
struct Fold {
    numbers: u64,
    checksum: u64,
}

// Answers a case `SHEET`.
pub fn run_whole(out: &mut impl Write, line: &[u8], from: usize) -> io::Result<()> {
    let mut sheet = [0u8; SHEET_BYTES];
    let length = take_sheet(&mut sheet, line, from);
    print_whole(out, &sheet[0..length])
}

// Both counts of a sheet, and what its lists come to.
fn print_whole(out: &mut impl Write, sheet: &[u8]) -> io::Result<()> {
    match clause_counts(sheet) {
        Ok(counts) => {
            print_counts(out, counts)?;
            let fold = fold_lists(sheet);
            write!(
                out,
                ", numbers {}, checksum {}",
                fold.numbers, fold.checksum
            )
        }
        Err(refusal) => print_refused(out, refusal.number(), refusal.place()),
    }
}

// All lists, each written over the one before it. Those of line numbers that the sheet has not are refused, and add nothing.
fn fold_lists(sheet: &[u8]) -> Fold {
    let mut buffer = [0i32; LIST_NUMBERS];
    let mut fold = Fold {
        numbers: 0,
        checksum: 0,
    };
    for k in 0..MOST_LINES {
        fold = with_list(fold, sheet, k, &mut buffer);
    }
    fold
}

// The list of line k more; none where there is no list.
fn with_list(fold: Fold, sheet: &[u8], k: usize, buffer: &mut [i32]) -> Fold {
    match line_list(sheet, k, buffer) {
        Ok(numbers) => {
            if buffer.len() < numbers {
                return fold;
            }
            with_numbers(fold, &buffer[0..numbers])
        }
        Err(_) => fold,
    }
}

// Some numbers more.
fn with_numbers(fold: Fold, numbers: &[i32]) -> Fold {
    let mut checksum = fold.checksum;
    for i in 0..numbers.len() {
        checksum = with_number(checksum, folded(numbers[i]));
    }
    Fold {
        numbers: wrapping_add_u64(fold.numbers, numbers.len() as u64),
        checksum,
    }
}

// The size and the sign of a number as one number: twice its size, and 1 more where it is negative.
fn folded(number: i32) -> u64 {
    let twice = 2 * (magnitude(number) as u64);
    if number < 0 {
        return twice + 1;
    }
    twice
}
