// The counts of a sheet: its variables, and the clauses of all lines.
ghost use Rattle.std.specs.Prelude.{◌≡◌, ◌≤◌};
ghost use Rattle.words.specs.Below.{count};
ghost use Rattle.clause_lists.specs.Variables.{adds, variables_before};
ghost use Rattle.clause_lists.specs.Lists.{clause_count};
ghost use Rattle.sheet.specs.Fields.{trail_of};
ghost use Rattle.clause_sizes.specs.Counts.{counts_of};

use crate::Counts;
use crate::sizes::list_size;
use run_literals::kinds::has_carries;
use sheet_fields::lines::line_at;
use sheet_fields::read_sheet::ReadSheet;

// Both counts.
pub fn both_counts(sheet: &ReadSheet) -> Counts
    ensures { result ≡ counts_of (trail_of sheet.now.bytes.now) }
{
    let lines = sheet.header.lines;
    Counts {
        variables: variables_before(sheet, lines),
        clauses: clauses_of_lines(sheet),
    }
}

// The variables of the words and of the carries of the lines before line k.
pub fn variables_before(sheet: &ReadSheet, k: usize) -> u32
    requires { k ≤ sheet.now.header.lines }
    ensures { result ≡ variables_before (trail_of sheet.now.bytes.now) k }
{
    let n = sheet.header.width;
    let words = (sheet.header.inputs + sheet.header.lines) as u32;
    n * words + 2 * (n - 1) * carried_before(sheet, k)
}

// How many of the lines before line k have carries.
fn carried_before(sheet: &ReadSheet, k: usize) -> u32
    requires { k ≤ sheet.now.header.lines }
    ensures { result ≡ count k (adds (trail_of sheet.now.bytes.now)) }
{
    let mut found = 0u32;
    for i in 0..k {
        let line = line_at(sheet, i);
        if has_carries(line.kind) {
            found += 1;
        }
    }
    found
}

// The clauses of all lines.
fn clauses_of_lines(sheet: &ReadSheet) -> u32
    ensures { result ≡ clause_count (trail_of sheet.now.bytes.now) }
{
    let lines = sheet.header.lines;
    let mut sum = 0u32;
    for k in 0..lines {
        let line = line_at(sheet, k);
        let size = list_size(line, sheet.header.width);
        sum += size.clauses;
    }
    sum
}
