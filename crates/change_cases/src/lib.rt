// Cases of changing a stated difference and of trying a change, run on `changing::change` and `changing::trial` (document 02, W-206).
//
// A case is a line `NAME: SHEET; LINE DIFFERENCE LINE DIFFERENCE ..`. The sheet is given as `LENGTH OFFSET=VALUE ..`: LENGTH bytes, all
// 0 but those listed. The changes are made one after the other. Each is tried before it is made, in buffers of three lengths, and held
// against changing a copy and reporting on it. A case `claim ..` has two changes: the first is tried, and held against a copy that has
// the second.
#![tactic(auto)]

mod trials;

ghost use Rattle.std.specs.Prelude.{◌≡◌, ◌≤◌, length};

use crate::trials::print_trials;
use answers::Refusal;
use case_text::parse::{find, number, take_sheet};
use case_text::print::print_refused;
use changing::change;
use sheet_cases::print::{print_answer, print_changes};
use std::io;
use std::io::Write;

// Room for the sheet of a case: one block more than any sheet has.
const SHEET_BYTES: usize = 5120;

// Answers one line: its name, and what it comes to.
pub fn run_case(out: &mut impl Write, line: &[u8]) -> io::Result<()> {
    let colon = find(line, 0, b':');
    out.write_all(&line[0..colon])?;
    write!(out, ":")?;
    take_case(out, line, colon)?;
    writeln!(out)
}

// Answers a case whose name ends at the colon.
fn take_case(out: &mut impl Write, line: &[u8], colon: usize) -> io::Result<()>
    requires { colon ≤ length line.now }
{
    let semicolon = find(line, colon, b';');
    let mut sheet = [0u8; SHEET_BYTES];
    let length = take_sheet(&mut sheet, &line[0..semicolon], colon + 2);
    let mut copy = sheet;
    run_listed(
        out,
        line,
        semicolon + 2,
        &mut sheet[0..length],
        &mut copy[0..length],
    )
}

// Answers what a case lists from `from` on, for a sheet that is given with its copy.
fn run_listed(
    out: &mut impl Write,
    line: &[u8],
    from: usize,
    sheet: &mut [u8],
    copy: &mut [u8],
) -> io::Result<()>
    requires { length copy.old ≡ length sheet.old }
{
    if line.len() == 0 {
        return Ok(());
    }
    if line[0] == b'c' {
        return run_claim(out, line, from, sheet, copy);
    }
    run_changes(out, line, from, sheet, copy)
}

// Holds the trial of one change against a copy that has another.
fn run_claim(
    out: &mut impl Write,
    line: &[u8],
    from: usize,
    sheet: &[u8],
    copy: &mut [u8],
) -> io::Result<()> {
    let k = number(line, from);
    let difference = number(line, k.next);
    let other = number(line, difference.next);
    let stated = number(line, other.next);
    let made = change(copy, other.value, stated.value as u64);
    print_trials(out, sheet, k.value, difference.value as u64, made, copy)
}

// Makes one change after the other. Each tells where the next begins.
fn run_changes(
    out: &mut impl Write,
    line: &[u8],
    from: usize,
    sheet: &mut [u8],
    copy: &mut [u8],
) -> io::Result<()>
    requires { length copy.old ≡ length sheet.old }
{
    let mut next = from;
    while next < line.len() {
        let k = number(line, next);
        let difference = number(line, k.next);
        run_change(out, sheet, copy, k.value, difference.value as u64)?;
        next = difference.next;
    }
    Ok(())
}

// Changes the copy, with what comes of it, holds the trial against it, and then changes the sheet itself. Both should have the same
// bytes now: any that the sheet has otherwise are printed.
fn run_change(
    out: &mut impl Write,
    sheet: &mut [u8],
    copy: &mut [u8],
    k: usize,
    difference: u64,
) -> io::Result<()>
    requires { length copy.old ≡ length sheet.old }
{
    write!(out, "\n  line {k} to {difference}")?;
    let made = change(copy, k, difference);
    print_made(out, made)?;
    print_changes(out, sheet, copy)?;
    print_answer(out, b", read", reading::read(copy))?;
    print_trials(out, sheet, k, difference, made, copy)?;
    let _ = change(sheet, k, difference);
    print_changes(out, copy, sheet)
}

// The answer of `changing::change`: ` changed`, or a refusal.
pub fn print_made(out: &mut impl Write, made: Result<(), Refusal>) -> io::Result<()> {
    match made {
        Ok(()) => write!(out, " changed"),
        Err(refusal) => print_refused(out, refusal.number(), refusal.place()),
    }
}
