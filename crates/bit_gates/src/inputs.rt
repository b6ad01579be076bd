// The literals among the inputs of a bit, gathered in an array.
ghost use Rattle.std.specs.Prelude.{[], ◌∷◌, ◌++◌, ◌+◌, ◌<◌};
ghost use Rattle.cnf.specs.Gates.{literals};
ghost use Rattle.run_literals.specs.Run.{taken_in, CanNegate};
ghost use Rattle.bit_gates.specs.Gates.{others_in, carries_in, inputs_in, gathered, Gathers};

use run_literals::LineRun;
use run_literals::kinds::{has_carries, uses_second};
use run_literals::literals::{carry_literal, first_literal, is_filled, second_literal};

// The first `count` of `lits`, in order. There is a place for the output behind three inputs.
#[derive(Clone, Copy)]
pub struct Inputs {
    pub lits: [i32; 4],
    pub count: usize,
}

// The literals of bit i: the first operand's, the second's and the carry's, those that the kind has.
pub fn gather(run: LineRun, i: u32) -> Inputs
    requires { i < run.width }
    ensures { Gathers 3 (literals (inputs_in run i)) result }
{
    let first = first_input(run, i);
    let operands = with_second(first, run, i);
    with_carry(operands, run, i)
}

// The bit that the first operand gives, unless a zero is filled in.
fn first_input(run: LineRun, i: u32) -> Inputs
    requires { i < run.width }
    ensures { Gathers 1 (literals (taken_in run i ∷ [])) result }
{
    let none = Inputs {
        lits: [0; 4],
        count: 0,
    };
    if is_filled(run, i) {
        none
    } else {
        with(none, first_literal(run, i))
    }
}

// The second operand's too, where the kind has one.
fn with_second(inputs: Inputs, run: LineRun, i: u32) -> Inputs
    requires { Gathers 1 (gathered inputs) inputs × (i < run.width) }
    ensures { Gathers 2 (gathered inputs ++ literals (others_in run i)) result }
{
    let line = run.line;
    if uses_second(line.kind) {
        with(inputs, second_literal(run, i))
    } else {
        inputs
    }
}

// The carry's too, where the kind has carries. None enters bit 0.
fn with_carry(inputs: Inputs, run: LineRun, i: u32) -> Inputs
    requires { Gathers 2 (gathered inputs) inputs × (i < run.width) }
    ensures { Gathers 3 (gathered inputs ++ literals (carries_in run i)) result }
{
    if i == 0 {
        return inputs;
    }
    let line = run.line;
    if has_carries(line.kind) {
        with(inputs, carry_literal(run, i))
    } else {
        inputs
    }
}

// One more.
pub fn with(inputs: Inputs, literal: i32) -> Inputs
    requires { Gathers 3 (gathered inputs) inputs × CanNegate literal }
    ensures { Gathers (inputs.count + 1) (gathered inputs ++ (literal ∷ [])) result }
{
    let mut lits = inputs.lits;
    let count = inputs.count;
    lits[count] = literal;
    Inputs {
        lits,
        count: count + 1,
    }
}
