// One line's list of a sheet that was read: the first run's clauses, then the second run's (document 01, "Clauses").

#![tactic(auto)]

ghost use Rattle.std.specs.Prelude.{◌≡◌, ◌+◌, ◌<◌, ◌≤◌, length};
ghost use Rattle.buffers.specs.Overwrite.{Wrote};
ghost use Rattle.clause_lists.specs.Lists.{clauses_in, line_list};
ghost use Rattle.clause_lists.specs.Variables.{variables_before};
ghost use Rattle.clause_lists.specs.Variables.Run.{firstRun, secondRun};
ghost use Rattle.sheet.specs.Fields.{trail_of};
ghost use Rattle.clause_writer.specs.Writing.{clauses_of_run};

use clause_sizes::counting::variables_before;
use clause_writer::put_run;
use run_literals::LineRun;
use sheet_fields::lines::line_at;
use sheet_fields::read_sheet::ReadSheet;
use sheet_reports::differential_at;

// Writes the list of line k from a position on. Returns the next position.
pub fn put_line(sheet: &ReadSheet, k: usize, out: &mut [i32], at: usize) -> usize
    requires { (k < sheet.now.header.lines)
        × (at + length (line_list (trail_of sheet.now.bytes.now) k) ≤ length out.old) }
    ensures { Wrote at (line_list (trail_of sheet.now.bytes.now) k) out.old result out.new }
{
    let before = variables_before(sheet, k);
    let after = put_run(out, at, first_run(sheet, k, before));
    put_run(out, after, second_run(sheet, k, before))
}

// The first run of line k, which has `before` variables before its carries: no literal is negated.
fn first_run(sheet: &ReadSheet, k: usize, before: u32) -> LineRun
    requires { (k < sheet.now.header.lines) × (before ≡ variables_before (trail_of sheet.now.bytes.now) k) }
    ensures { clauses_of_run result ≡ clauses_in (trail_of sheet.now.bytes.now) firstRun k }
{
    LineRun {
        width: sheet.header.width,
        word: sheet.header.inputs + k,
        line: line_at(sheet, k),
        first: 0,
        second: 0,
        made: 0,
        carries: before,
    }
}

// The second run: the ones of a word's difference negate its literals, and its carries are its own.
fn second_run(sheet: &ReadSheet, k: usize, before: u32) -> LineRun
    requires { (k < sheet.now.header.lines) × (before ≡ variables_before (trail_of sheet.now.bytes.now) k) }
    ensures { clauses_of_run result ≡ clauses_in (trail_of sheet.now.bytes.now) secondRun k }
{
    let differential = differential_at(sheet, k);
    let line = differential.line;
    let first = differential.first;
    let made = line.difference;
    let width = sheet.header.width;
    let word = sheet.header.inputs + k;
    let carries = before + (width - 1);
    LineRun {
        width,
        word,
        line,
        first,
        second: differential.second,
        made,
        carries,
    }
}
