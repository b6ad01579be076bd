// The tables of a line's gates: bit t of a table is the output at the inputs' row t, the first input as highest bit. A constant's
// bit and the carry into bit 0 are no literals: they choose the table. Where only the number of ones counts, the lower rows of a
// table serve for fewer than three literals, and a filled zero, which is none, counts for nothing.
ghost use Rattle.std.specs.Prelude.{◌≡◌, true, ◌<◌};
ghost use Rattle.trail.specs.Kinds.{kind_of};
ghost use Rattle.clause_lists.specs.Kinds.{parity, has_carries};
ghost use Rattle.bit_gates.specs.Gates.{inputs_in, function_of, IsTable};

use arithmetic::bit;
use run_literals::LineRun;

const ODD: u32 = 0b1001_0110;

const EVEN: u32 = 0b0110_1001;

const ONE_OR_MORE: u32 = 0b1111_1110;

const TWO_OR_MORE: u32 = 0b1110_1000;

const BORROW: u32 = 0b1000_1110;

const BORROW_FROM_LOWEST: u32 = 0b0010;

// The result's bit i: the XOR of its inputs.
pub(crate) fn result_table(run: LineRun, i: u32) -> u32
    requires { i < run.width }
    ensures { IsTable parity (inputs_in run i) result }
{
    let line = run.line;
    if bit(line.constant, i) { EVEN } else { ODD }
}

// The carry out of bit i: whether two or more of the inputs are 1. A borrow: whether the first is less than the others together, of
// which there are two above bit 0.
pub(crate) fn carry_table(run: LineRun, i: u32) -> u32
    requires { (i < run.width) × (has_carries (kind_of run.line.kind) ≡ true) }
    ensures { IsTable (function_of run 1) (inputs_in run i) result }
{
    let line = run.line;
    let kind = line.kind;
    match kind {
        9 => { if i == 0 { BORROW_FROM_LOWEST } else { BORROW } }
        _ => {
            if bit(line.constant, i) {
                ONE_OR_MORE
            } else {
                TWO_OR_MORE
            }
        }
    }
}
