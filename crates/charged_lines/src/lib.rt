// The lines that totals have charged so far (document 02, W-202): a list of numbers, seven to a line, and beside it marks, by which a
// line that is not in the list is nearly always known without a search.

#![tactic(auto)]

ghost use Rattle.std.specs.Prelude.{◌≡◌, ◌&&◌, cond, ◌+◌, ◌*◌, ◌≤◌, ◌<◌, length, set};
ghost use Rattle.buffers.specs.Overwrite.{overwrite};
ghost use Rattle.trail.specs.WellFormed.{most_lines};
ghost use Rattle.differential.specs.Report.{report_means};
ghost use Rattle.listed_lines.specs.Listed.{line_numbers, numbers_of, is_listed};
ghost use Rattle.charged_lines.specs.Charged.{marks_count, mark_of, is_marked, Marked, costs as Charged·costs};

use differential::LineReport;
use listed_lines::{LINE_NUMBERS, is_listed, numbers_of};
use trail::Line;

// The numbers of the list if every line of the longest sheet is charged.
pub const CHARGED_NUMBERS: usize = 1736;

// The marks: some sixteen to a line of the longest sheet, so that two lines seldom share one.
pub const MARKS: usize = 4096;

// The charged lines: their numbers in a list, how many lines they are, and the marks, by which each of them is marked.
#[derive(Drop)]
pub struct ChargedLines {
    pub numbers: [u64; CHARGED_NUMBERS],
    pub count: usize,
    pub marks: [u8; MARKS],
    pub ghost room: { length numbers ≡ line_numbers * most_lines },
    pub ghost within: { count ≤ most_lines },
    pub ghost marked: { Marked numbers count marks },
}

impl ChargedLines {
    // None is charged yet.
    pub fn new() -> Self
        ensures { result.count ≡ 0 }
    {
        ChargedLines {
            numbers: [0; CHARGED_NUMBERS],
            count: 0,
            marks: [0; MARKS],
        }
    }

    // Whether a line costs something and an equal one is charged.
    pub fn holds(&self, line: Line, report: LineReport) -> bool
        ensures { result ≡ (Charged·costs (report_means report) && is_listed self.now.numbers self.now.count line) }
    {
        is_charged(&self.numbers, self.count, &self.marks, line, report)
    }

    // Writes a line that costs something behind the others, and sets its mark.
    pub fn charge(&mut self, line: Line, report: LineReport)
        requires { self.old.count < most_lines }
        ensures { (self.new.count ≡ cond (Charged·costs (report_means report)) (self.old.count + 1) self.old.count)
            × (self.new.numbers ≡ cond (Charged·costs (report_means report))
            (overwrite (line_numbers * self.old.count) (numbers_of line) self.old.numbers) self.old.numbers)
            × (self.new.marks ≡ cond (Charged·costs (report_means report)) (set self.old.marks (mark_of line) 1) self.old.marks) }
    {
        self.count = charge(&mut self.numbers, self.count, &mut self.marks, line, report);
    }
}

// This function and the next take any list with room for their lines, and not the longest sheet's alone: they promised that before
// there was a type of the charged lines.

// Whether a line costs something and an equal one is charged. One that costs nothing is not looked for, and the list is searched only
// where the line's mark is set.
pub fn is_charged(
    charged: &[u64],
    count: usize,
    marks: &[u8; MARKS],
    line: Line,
    report: LineReport,
) -> bool
    requires { (line_numbers * count ≤ length charged.now) × Marked charged.now count marks.now }
    ensures { result ≡ (Charged·costs (report_means report) && is_listed charged.now count line) }
{
    costs(report) && is_marked(marks, line) && is_listed(charged, count, line)
}

// Writes a line that costs something behind the first `count` of the list, and sets its mark. Returns how many there are then.
pub fn charge(
    charged: &mut [u64],
    count: usize,
    marks: &mut [u8; MARKS],
    line: Line,
    report: LineReport,
) -> usize
    requires { line_numbers * count + line_numbers ≤ length charged.old }
    ensures { (result ≡ cond (Charged·costs (report_means report)) (count + 1) count)
        × (charged.new ≡ cond (Charged·costs (report_means report))
        (overwrite (line_numbers * count) (numbers_of line) charged.old) charged.old)
        × (marks.new ≡ cond (Charged·costs (report_means report)) (set marks.old (mark_of line) 1) marks.old) }
{
    if costs(report) {
        let numbers = numbers_of(line);
        let at = LINE_NUMBERS * count;
        charged[at..at + LINE_NUMBERS].copy_from_slice(&numbers);
        let mark = mark_of(line);
        marks[mark] = 1;
        return count + 1;
    }
    count
}

// Whether a report may have weight or chains.
fn costs(report: LineReport) -> bool
    ensures { result ≡ Charged·costs (report_means report) }
{
    match report {
        LineReport::Impossible => false,
        LineReport::Certain => false,
        LineReport::Halves(_) => true,
        LineReport::Counted(_, _, _) => true,
    }
}

// Whether the mark at a line's place is set.
fn is_marked(marks: &[u8; MARKS], line: Line) -> bool
    ensures { result ≡ is_marked marks.now line }
{
    let mark = mark_of(line);
    marks[mark] != 0
}

// The place of a line's mark. The product spreads fingerprints that differ in few bits; with shifts alone the lines of a sheet whose
// fields count up together would share a few places.
fn mark_of(line: Line) -> usize
    ensures { (result ≡ mark_of line) × (result < marks_count) }
{
    let numbers = numbers_of(line);
    let fingerprint = numbers[0];
    let folded = (fingerprint ^ fingerprint >> 20 ^ fingerprint >> 32) % 4294967296;
    (folded * 2654435769 >> 20) as usize % MARKS
}
