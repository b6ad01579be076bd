// The reports that the lines of a sheet that was read would have, were one stated difference another (document 02, W-206). The sheet
// is not changed, and nothing is copied: a line's report depends on what it states and on its operands' differences alone, so the
// new difference is put in wherever it is one of these.

#![tactic(auto)]

ghost use Rattle.std.specs.Prelude.{◌≡◌, cond, ◌^◌, ◌<◌, ◌≤◌, eqb, length};
ghost use Rattle.buffers.specs.Overwrite.{Wrote};
ghost use Rattle.trail.specs.Changing.{with_difference};
ghost use Rattle.sheet.specs.Fields.{trail_of};
ghost use Rattle.trail_reports.specs.Lines.{differential_of};
ghost use Rattle.report_buffer.specs.Buffer.{sheet_bytes, bytes_needed};

use differential::Differential;
use line_reports::report;
use report_buffer::put_report;
use sheet_fields::read_sheet::ReadSheet;
use sheet_reports::differential_at;
use trail::Line;

// A word's difference, which is the new one if the word is the changed line's.
fn difference_of(word: usize, changed: usize, new: u64, old: u64) -> u64
    ensures { result ≡ cond (eqb word changed) new old }
{
    if word == changed {
        return new;
    }
    old
}

// Line i's differential, with line k's stated difference replaced.
fn changed_differential(sheet: &ReadSheet, k: usize, difference: u64, i: usize) -> Differential
    requires { (k < sheet.now.header.lines) × (i < sheet.now.header.lines) }
    ensures { result ≡ differential_of (with_difference (trail_of sheet.now.bytes.now) k difference) i }
{
    let header = sheet.header;
    let before = differential_at(sheet, i);
    let line = before.line;
    let changed = header.inputs + k;
    let stated = difference_of(header.inputs + i, changed, difference, line.difference);
    let first = difference_of(line.first, changed, difference, before.first);
    let second = difference_of(line.second, changed, difference, before.second);
    Differential {
        width: before.width,
        line: Line {
            kind: line.kind,
            amount: line.amount,
            first: line.first,
            second: line.second,
            constant: line.constant,
            difference: stated,
        },
        first,
        second,
    }
}

// Writes the reports of all lines, with line k's stated difference replaced, one behind the other. Returns the next position.
pub fn put_changed_reports(sheet: &ReadSheet, k: usize, difference: u64, out: &mut [u8]) -> usize
    requires { (k < sheet.now.header.lines) × (difference < 2 ^ sheet.now.header.width)
        × (bytes_needed sheet.now.header.lines ≤ length out.old) }
    ensures { Wrote 0 (sheet_bytes (with_difference (trail_of sheet.now.bytes.now) k difference)) out.old result out.new }
{
    let mut next = 0;
    for i in 0..sheet.header.lines {
        let differential = changed_differential(sheet, k, difference, i);
        next = put_report(out, next, report(differential));
    }
    next
}
