// The outputs of a bit: output 0 is the result, and output 1 the carry into the next bit.
ghost use Rattle.std.specs.Prelude.{◌≡◌, ◌+◌, ◌<◌};
ghost use Rattle.run_literals.specs.Run.{CanNegate};
ghost use Rattle.bit_gates.specs.Gates.{inputs_in, outputs_of, function_of, output_in, IsTable};

use crate::tables::{carry_table, result_table};
use run_literals::LineRun;
use run_literals::kinds::has_carries;
use run_literals::literals::{carry_literal, made_literal};

// How many outputs bit i has. No carry goes out of the highest bit.
pub fn output_count(run: LineRun, i: u32) -> u32
    requires { i < run.width }
    ensures { result ≡ outputs_of run i }
{
    let line = run.line;
    if i + 1 == run.width {
        return 1;
    }
    if has_carries(line.kind) { 2 } else { 1 }
}

// The literal of output j.
pub fn output_literal(run: LineRun, i: u32, j: u32) -> i32
    requires { i < run.width }
    ensures { (result ≡ output_in run i j) × CanNegate result }
{
    if j == 0 {
        made_literal(run, i)
    } else {
        carry_literal(run, i + 1)
    }
}

// The table by which it is tied to the inputs.
pub fn output_table(run: LineRun, i: u32, j: u32) -> u32
    requires { (i < run.width) × (j < outputs_of run i) }
    ensures { IsTable (function_of run j) (inputs_in run i) result }
{
    if j == 0 {
        result_table(run, i)
    } else {
        carry_table(run, i)
    }
}
