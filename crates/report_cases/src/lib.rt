// Cases of line reports, run on `report::line_report`, `report::sheet_totals` and `report::write_reports`: each
// differential's report is held against a count over all operand values.
//
// A case is a line `NAME: NUMBERS`. Its name's first letter says what it is:
// - `every ..: KIND WIDTH`, all differentials of a kind and a width;
// - `differential ..: KIND WIDTH AMOUNT CONSTANT FIRST SECOND DIFFERENCE`, one, with the differences of both operands;
// - `sheet ..: LENGTH OFFSET=VALUE ..`, a sheet of LENGTH bytes, all 0 but those listed, that is sealed first;
// - `unsealed ..: LENGTH OFFSET=VALUE ..`, a sheet that is left as it is;
// - `claim ..: KIND WIDTH REPORT WEIGHT CHAINS N COUNT`, a report and a count that are held against each other.
#![tactic(auto)]

mod claims;
mod every;
mod line_sheet;
mod one;
mod rows;
mod tally;
pub mod whole;

use crate::claims::run_claim;
use crate::every::run_every;
use crate::one::run_one;
use crate::whole::run_sheet;
use case_text::parse::find;
use std::io;
use std::io::Write;

// Answers one line: its name, and what it comes to.
pub fn run_case(out: &mut impl Write, line: &[u8]) -> io::Result<()> {
    let colon = find(line, 0, b':');
    out.write_all(&line[0..colon])?;
    write!(out, ":")?;
    answer(out, line, colon + 2)?;
    writeln!(out)
}

// What stands after a case's name. Its numbers start at `from`.
fn answer(out: &mut impl Write, line: &[u8], from: usize) -> io::Result<()> {
    if line.len() == 0 {
        return Ok(());
    }
    let letter = line[0];
    match letter {
        b'e' => run_every(out, line, from),
        b'd' => run_one(out, line, from),
        b's' => run_sheet(out, line, from, true),
        b'c' => run_claim(out, line, from),
        _ => run_sheet(out, line, from, false),
    }
}
