// The clauses of one run of one line, written into a lent buffer of numbers.

#![tactic(auto)]

mod bits;

ghost use Rattle.std.specs.Prelude.{◌+◌, ◌≤◌, length};
ghost use Rattle.buffers.specs.Overwrite.{Wrote};
ghost use Rattle.cnf.specs.Formulas.{numbers};
ghost use Rattle.clause_writer.specs.Writing.{clauses_of_run};

use crate::bits::put_bit;
use run_literals::LineRun;

// Writes a run's clauses from a position on, bits upward. Returns the next position.
pub fn put_run(out: &mut [i32], at: usize, run: LineRun) -> usize
    requires { at + length (numbers (clauses_of_run run)) ≤ length out.old }
    ensures { Wrote at (numbers (clauses_of_run run)) out.old result out.new }
{
    let n = run.width;
    let mut next = at;
    for i in 0..n {
        next = put_bit(out, next, run, i);
    }
    next
}
