// The clauses of one bit of a run.
ghost use Rattle.std.specs.Prelude.{◌+◌, ◌<◌, ◌≤◌, length};
ghost use Rattle.buffers.specs.Overwrite.{Wrote};
ghost use Rattle.cnf.specs.Formulas.{numbers};
ghost use Rattle.run_literals.specs.Run.{CanNegate};
ghost use Rattle.bit_gates.specs.Gates.{gathered, Gathers};
ghost use Rattle.clause_writer.specs.Writing.{clauses_of_bit, tied_by};

use bit_gates::inputs::{Inputs, gather, with};
use bit_gates::outputs::{output_count, output_literal, output_table};
use gate_writer::put_gate;
use run_literals::LineRun;

// Writes the clauses of bit i from a position on, those of one output after the other. Returns the next position.
pub(crate) fn put_bit(out: &mut [i32], at: usize, run: LineRun, i: u32) -> usize
    requires { (i < run.width) × (at + length (numbers (clauses_of_bit run i)) ≤ length out.old) }
    ensures { Wrote at (numbers (clauses_of_bit run i)) out.old result out.new }
{
    let inputs = gather(run, i);
    let outputs = output_count(run, i);
    let mut next = at;
    for j in 0..outputs {
        let output = output_literal(run, i, j);
        let table = output_table(run, i, j);
        next = put_output(out, next, inputs, output, table);
    }
    next
}

// Writes the clauses that tie an output to the inputs by a table.
fn put_output(out: &mut [i32], at: usize, inputs: Inputs, output: i32, table: u32) -> usize
    requires { Gathers 3 (gathered inputs) inputs × CanNegate output
        × (at + length (tied_by inputs output table) ≤ length out.old) }
    ensures { Wrote at (tied_by inputs output table) out.old result out.new }
{
    let all = with(inputs, output);
    let lits = all.lits;
    let count = all.count;
    put_gate(out, at, &lits[..count], table)
}
