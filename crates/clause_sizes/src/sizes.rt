// How long a line's list is, before it is written.
ghost use Rattle.std.specs.Prelude.{◌≡◌, ℕ, ◌+◌, ◌*◌, ◌<◌, ◌≤◌, length};
ghost use Rattle.trail.specs.WellFormed.{WellFormedLine};
ghost use Rattle.clause_lists.specs.Lists.{line_list};
ghost use Rattle.clause_lists.specs.Sizes.{filled_bits, gate_counts, size_of, clauses_of_gate, numbers_of_gate};
ghost use Rattle.sheet.specs.Fields.{trail_of};

use run_literals::kinds::{has_carries, uses_second};
use sheet_fields::lines::line_at;
use sheet_fields::read_sheet::ReadSheet;
use trail::Line;

// The clauses of a list, and its numbers: literals and zeros.
#[derive(Clone, Copy)]
pub struct ListSize {
    pub clauses: u32,
    pub numbers: usize,
}

// How many numbers the list of line k has.
pub fn list_numbers(sheet: &ReadSheet, k: usize) -> usize
    requires { k < sheet.now.header.lines }
    ensures { result ≡ length (line_list (trail_of sheet.now.bytes.now) k) }
{
    let line = line_at(sheet, k);
    let size = list_size(line, sheet.header.width);
    size.numbers
}

// The size of a line's list. Without carries both runs have a gate for each bit; with carries two gates in bit 0, which no carry
// enters, two in each bit above, and one in the last.
pub(crate) fn list_size(line: Line, n: u32) -> ListSize
    requires { (2 ≤ n) × (n ≤ 64) × ((j : ℕ) × WellFormedLine n j line) }
    ensures { (result.clauses ≡ size_of clauses_of_gate (gate_counts n line)) × (result.numbers ≡ size_of numbers_of_gate (gate_counts n line)) }
{
    let kind = line.kind;
    if uses_second(kind) {
        if has_carries(kind) {
            return of_gates(0, 0, 4, 4 * n - 6);
        }
        return of_gates(0, 0, 2 * n, 0);
    }
    if has_carries(kind) {
        return of_gates(0, 4, 4 * n - 6, 0);
    }
    let filled = filled_bits(line, n);
    of_gates(2 * filled, 2 * (n - filled), 0, 0)
}

// In how many bits a zero is filled in, which is no literal: a shift has as many as its amount.
fn filled_bits(line: Line, n: u32) -> u32
    requires { (j : ℕ) × WellFormedLine n j line }
    ensures { (result ≡ filled_bits n line) × (result ≤ n) }
{
    let kind = line.kind;
    match kind {
        7..=8 => line.amount,
        _ => 0,
    }
}

// The size of so many gates with no, one, two and three literals among their inputs.
fn of_gates(none: u32, one: u32, two: u32, three: u32) -> ListSize
    requires { (none ≤ 256) × (one ≤ 256) × (two ≤ 256) × (three ≤ 256) }
    ensures { (result.clauses ≡ none + 2 * one + 4 * two + 8 * three) × (result.numbers ≡ 2 * none + 6 * one + 16 * two + 40 * three) }
{
    ListSize {
        clauses: none + 2 * one + 4 * two + 8 * three,
        numbers: (2 * none + 6 * one + 16 * two + 40 * three) as usize,
    }
}
