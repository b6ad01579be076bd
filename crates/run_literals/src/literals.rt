// The literals of a run.
ghost use Rattle.std.specs.Prelude.{◌≡◌, false, ◌≤◌, ◌<◌};
ghost use Rattle.trail.specs.WellFormed.{most_words};
ghost use Rattle.cnf.specs.Gates.Input.{literal};
ghost use Rattle.clause_lists.specs.Kinds.{is_filled};
ghost use Rattle.clause_lists.specs.Kinds.Taken.{bit_at};
ghost use Rattle.run_literals.specs.Run.{signed_literal, taken_at, taken_in, word_in, carry_in, CanNegate};

use crate::LineRun;

// Bit i of a word of n bits: its variable, negated where that bit of the difference is 1.
fn bit_literal(n: u32, word: usize, difference: u64, i: u32) -> i32
    requires { (n ≤ 64) × (word < most_words) × (i < n) }
    ensures { (result ≡ signed_literal n word difference i) × CanNegate result }
{
    let variable = (n * word as u32 + i + 1) as i32;
    if (difference >> i) & 1 == 1 {
        -variable
    } else {
        variable
    }
}

// Whether bit i takes no bit of the first operand: a shift fills a zero in there, which is no literal.
pub fn is_filled(run: LineRun, i: u32) -> bool
    requires { i < run.width }
    ensures { result ≡ is_filled (taken_at run i) }
{
    let line = run.line;
    let kind = line.kind;
    match kind {
        7 => i < line.amount,
        8 => run.width <= i + line.amount,
        _ => false,
    }
}

// The literal of the first operand's bit that bit i takes.
pub fn first_literal(run: LineRun, i: u32) -> i32
    requires { (i < run.width) × (is_filled (taken_at run i) ≡ false) }
    ensures { (taken_in run i ≡ literal result) × CanNegate result }
{
    let line = run.line;
    bit_literal(run.width, line.first, run.first, first_bit(run, i))
}

// Which bit that is: a rotation or a shift takes another than bit i.
fn first_bit(run: LineRun, i: u32) -> u32
    requires { (i < run.width) × (is_filled (taken_at run i) ≡ false) }
    ensures { taken_at run i ≡ bit_at result }
{
    let line = run.line;
    let n = run.width;
    let kind = line.kind;
    match kind {
        3 => (i + (n - line.amount)) % n,
        4 => (i + line.amount) % n,
        7 => i - line.amount,
        8 => i + line.amount,
        _ => i,
    }
}

// Bit i of the second operand.
pub fn second_literal(run: LineRun, i: u32) -> i32
    requires { i < run.width }
    ensures { (result ≡ word_in run run.line.second i) × CanNegate result }
{
    let line = run.line;
    bit_literal(run.width, line.second, run.second, i)
}

// Bit i of the word that the line makes.
pub fn made_literal(run: LineRun, i: u32) -> i32
    requires { i < run.width }
    ensures { (result ≡ word_in run run.word i) × CanNegate result }
{
    bit_literal(run.width, run.word, run.made, i)
}

// The carry into bit i.
pub fn carry_literal(run: LineRun, i: u32) -> i32
    requires { i ≤ run.width }
    ensures { (result ≡ carry_in run i) × CanNegate result }
{
    (run.carries + i) as i32
}
