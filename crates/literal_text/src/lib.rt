// Literals and clauses as text, written into a lent buffer of bytes (document 01, "The programs"). Each writer takes the position to
// write at and returns the next one.

#![tactic(auto)]

ghost use Rattle.std.specs.Prelude.{◌≡◌, ◌+◌, ◌≤◌, ◌<◌, length, nat_abs};
ghost use Rattle.buffers.specs.Overwrite.{Wrote};
ghost use Rattle.dimacs.specs.Text.{literal_text};
ghost use Rattle.dimacs.specs.Numbers.{number_text, numbers_text, AllBelow};

use digit_pairs::{DigitPairs, digit_pairs, put_quick};

// Writes a list of numbers, literals with a 0 after each clause: a clause a line.
pub fn put_list(out: &mut [u8], at: usize, list: &[i32]) -> usize
    requires { AllBelow 1000000 list.now × (at + length (numbers_text list.now) ≤ length out.old) }
    ensures { Wrote at (numbers_text list.now) out.old result out.new }
{
    let table = digit_pairs();
    let mut next = at;
    for number in list {
        next = put_number(out, next, &table, *number);
    }
    next
}

// Writes a literal and a blank, or the 0 that closes a clause and the line's end.
fn put_number(out: &mut [u8], at: usize, table: &DigitPairs, number: i32) -> usize
    requires { (nat_abs number < 1000000) × (at + length (number_text number) ≤ length out.old) }
    ensures { Wrote at (number_text number) out.old result out.new }
{
    if number == 0 {
        out[at] = b'0';
        out[at + 1] = b'\n';
        return at + 2;
    }
    let next = put_literal(out, at, table, number);
    out[next] = b' ';
    next + 1
}

// Writes a literal: its variable, after a minus if it is negated.
fn put_literal(out: &mut [u8], at: usize, table: &DigitPairs, literal: i32) -> usize
    requires { (nat_abs literal < 1000000) × (at + length (literal_text literal) ≤ length out.old) }
    ensures { Wrote at (literal_text literal) out.old result out.new }
{
    let variable = magnitude(literal) as usize;
    if literal < 0 {
        out[at] = b'-';
        return put_quick(out, at + 1, table, variable);
    }
    put_quick(out, at, table, variable)
}

// A number without its sign.
pub fn magnitude(number: i32) -> u32
    ensures { result ≡ nat_abs number }
{
    if number < 0 {
        return -(number + 1) as u32 + 1;
    }
    number as u32
}
