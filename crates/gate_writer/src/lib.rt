// Clauses of gates, written into a lent buffer of numbers.

#![tactic(auto)]

ghost use Rattle.std.specs.Prelude.{◌≡◌, cond, not, [], ◌∷◌, ◌+◌, ◌*◌, ◌-◌, ◌^◌, ◌≤◌, ◌<◌, length, neg_ℤ};
ghost use Rattle.std.specs.Int.Signed.{mag};
ghost use Rattle.words.specs.Words.{value, bit as Words·bit};
ghost use Rattle.buffers.specs.Overwrite.{Wrote};
ghost use Rattle.cnf.specs.Formulas.{numbers};
ghost use Rattle.cnf.specs.Gates.{clause_of};
ghost use Rattle.gate_writer.specs.Tables.{table_gate, Small};

use arithmetic::bit;

// Writes the clauses that tie the last literal to the others by the table: bit t of the table is the output at the inputs' row t.
// Returns the next place. Each usual length stands in an arm of its own as a constant, by which the compiler unrolls the loops.
pub fn put_gate(out: &mut [i32], at: usize, lits: &[i32], table: u32) -> usize
    requires { (1 ≤ length lits.now) × (length lits.now ≤ 4) × Small lits.now
        × (at + length (numbers (table_gate lits.now table)) ≤ length out.old) }
    ensures { Wrote at (numbers (table_gate lits.now table)) out.old result out.new }
{
    let count = lits.len();
    match count {
        2 => put_rows(out, at, lits, 2, table),
        3 => put_rows(out, at, lits, 3, table),
        4 => put_rows(out, at, lits, 4, table),
        _ => put_rows(out, at, lits, count, table),
    }
}

// The same of `count` literals, by a loop over the inputs' rows, of which each gives one clause.
fn put_rows(out: &mut [i32], at: usize, lits: &[i32], count: usize, table: u32) -> usize
    requires { (length lits.now ≡ count) × (1 ≤ count) × (count ≤ 4) × Small lits.now
        × (at + length (numbers (table_gate lits.now table)) ≤ length out.old) }
    ensures { Wrote at (numbers (table_gate lits.now table)) out.old result out.new }
{
    let rows = 1u32 << (count - 1);
    let mut next = at;
    for inputs in 0..rows {
        next = put_clause(out, next, lits, count, wrong_row(table, inputs));
    }
    next
}

// Of the two rows that the inputs' row begins, the one whose output, its lowest bit, is not the table's: just one gives a clause, and
// no row is tested.
fn wrong_row(table: u32, inputs: u32) -> u32
    requires { inputs < 8 }
    ensures { result ≡ 2 * inputs + value (not (Words·bit table inputs)) }
{
    if bit(table as u64, inputs) {
        2 * inputs
    } else {
        2 * inputs + 1
    }
}

// Writes the clause of a row, and 0: each literal negated where the row has 1, the first literal's bit highest.
fn put_clause(out: &mut [i32], at: usize, lits: &[i32], count: usize, row: u32) -> usize
    requires { (length lits.now ≡ count) × (count ≤ 4) × Small lits.now
        × (at + length (numbers (clause_of lits.now row ∷ [])) ≤ length out.old) }
    ensures { Wrote at (numbers (clause_of lits.now row ∷ [])) out.old result out.new }
{
    for i in 0..count {
        let behind = count - 1 - i;
        out[at + i] = signed(lits[i], bit(row as u64, behind as u32));
    }
    out[at + count] = 0;
    at + count + 1
}

// The literal, negated where its bit in the row is 1.
fn signed(literal: i32, one: bool) -> i32
    requires { mag literal < 2 ^ 31 - 1 }
    ensures { result ≡ cond one (neg_ℤ literal) literal }
{
    if one { -literal } else { literal }
}
