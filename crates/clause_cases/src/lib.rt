// Cases of two runs and of clause lists, run on `runs::two_runs`, `clauses::clause_counts` and `clauses::line_list`. What
// follows and what satisfies is counted over all there is.
//
// A case is a line `NAME: NUMBERS`, where a sheet is given as `LENGTH OFFSET=VALUE ..`: LENGTH bytes, all 0
// but those listed. Its name's first letter says what it is:
// - `list ..: K SHEET`, the list of line K, in buffers of three lengths;
// - `pairs ..: SHEET`, the satisfying assignments and the starting values that follow;
// - `start ..: COUNT WORD WORD .. SHEET`, two runs from COUNT words;
// - `whole ..: SHEET`, a checksum of all lines' lists.
#![tactic(auto)]

pub mod following;
mod lists;
mod pairs;
mod print;
mod satisfying;
mod starts;
mod whole;

use crate::lists::run_list;
use crate::pairs::run_pairs;
use crate::starts::run_start;
use crate::whole::run_whole;
use case_text::parse::find;
use std::io;
use std::io::Write;

// Room for the sheet of a case: one block more than any sheet has.
const SHEET_BYTES: usize = 5120;

// Answers one line: its name, and what it comes to.
pub fn run_case(out: &mut impl Write, line: &[u8]) -> io::Result<()> {
    let colon = find(line, 0, b':');
    out.write_all(&line[0..colon])?;
    write!(out, ":")?;
    answer(out, line, colon + 2)?;
    writeln!(out)
}

// What stands after a case's name. Its numbers start at `from`.
fn answer(out: &mut impl Write, line: &[u8], from: usize) -> io::Result<()> {
    if line.len() == 0 {
        return Ok(());
    }
    let letter = line[0];
    match letter {
        b'l' => run_list(out, line, from),
        b'p' => run_pairs(out, line, from),
        b's' => run_start(out, line, from),
        _ => run_whole(out, line, from),
    }
}
