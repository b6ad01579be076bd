// Counts and lists as text.
use clause_sizes::Counts;
use std::io;
use std::io::Write;

// Both counts of a sheet.
pub fn print_counts(out: &mut impl Write, counts: Counts) -> io::Result<()> {
    write!(
        out,
        " variables {}, clauses {}",
        counts.variables, counts.clauses
    )
}

// The numbers of a list, a space before each.
pub fn print_numbers(out: &mut impl Write, numbers: &[i32]) -> io::Result<()> {
    for number in numbers {
        write!(out, " {number}")?;
    }
    Ok(())
}
