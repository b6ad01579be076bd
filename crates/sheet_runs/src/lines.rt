// One line after the other, in both runs.
ghost use Rattle.std.specs.Prelude.{◌≡◌, true, ◌+◌, ◌<◌, ◌≤◌, get_or, set};
ghost use Rattle.std.specs.Int.Bits.{bit_xor};
ghost use Rattle.trail.specs.Kinds.{makes};
ghost use Rattle.trail.specs.Trail.{line_at};
ghost use Rattle.trail.specs.WellFormed.{WellFormedLine, most_words};
ghost use Rattle.trail.specs.Runs.{word_of_line, is_start};
ghost use Rattle.sheet.specs.Fields.{trail_of};
ghost use Rattle.sheet_runs.specs.Outcome.{outcome};
ghost use Rattle.sheet_runs.specs.Outcome.{outcome_means};
ghost use Rattle.sheet_runs.specs.Facts.{Holds, with_line, NoOnes};

use crate::start::begin;
use crate::{RunsOutcome, Words};
use line_words::word_made;
use sheet_fields::lines::line_at;
use sheet_fields::read_sheet::ReadSheet;
use trail::Line;

// Both runs, up to the first line, and in it the lowest bit, where the differences disagree.
pub fn run_lines(sheet: &ReadSheet, start: &[u64]) -> RunsOutcome
    requires { is_start (trail_of sheet.now.bytes.now) start.now ≡ true }
    ensures { outcome_means result ≡ outcome (trail_of sheet.now.bytes.now) start.now }
{
    let mut first = [0u64; 256];
    let mut second = [0u64; 256];
    begin(sheet, start, &mut first, &mut second);
    let lines = sheet.header.lines;
    let n = sheet.header.width;
    let mut k = 0;
    // The label leaves both loops with the answer, which no `for` can give.
    'lines: loop {
        if lines <= k {
            break 'lines RunsOutcome::Follows;
        }
        let apart = run_line(sheet, k, &mut first, &mut second);
        let asked = bits_asked(apart, n);
        'bits: for i in 0..asked {
            if arithmetic::bit(apart, i) {
                break 'lines RunsOutcome::Disagree(k, i);
            }
        }
        k += 1;
    }
}

// How many of the bits have to be gone through: none where all agree, as in nearly every line of a trail that is followed.
fn bits_asked(apart: u64, n: u32) -> u32
    ensures { (result ≤ n) × NoOnes apart result n }
{
    if apart == 0 {
        return 0;
    }
    n
}

// Makes line k's word in both runs. The answer has a 1 in each bit where the results' difference is not the stated one.
fn run_line(sheet: &ReadSheet, k: usize, first: &mut Words, second: &mut Words) -> u64
    requires { (k < sheet.now.header.lines) × Holds sheet.now.header.width (sheet.now.header.inputs + k) first.old
        × Holds sheet.now.header.width (sheet.now.header.inputs + k) second.old }
    ensures { (first.new ≡ with_line (trail_of sheet.now.bytes.now) k first.old)
        × (second.new ≡ with_line (trail_of sheet.now.bytes.now) k second.old)
        × (result ≡ bit_xor (bit_xor (word_of_line (trail_of sheet.now.bytes.now) k first.old)
        (word_of_line (trail_of sheet.now.bytes.now) k second.old)) (line_at (trail_of sheet.now.bytes.now) k).difference) }
{
    let line = line_at(sheet, k);
    let word = sheet.header.inputs + k;
    let x = make_word(sheet.header.width, line, word, first);
    let y = make_word(sheet.header.width, line, word, second);
    x ^ y ^ line.difference
}

// Makes a line's word in one run, from the words before it.
fn make_word(n: u32, line: Line, word: usize, words: &mut Words) -> u64
    requires { (1 ≤ n) × (n ≤ 64) × (word < most_words) × WellFormedLine n word line × Holds n word words.old }
    ensures { (result ≡ makes n line (get_or words.old line.first 0) (get_or words.old line.second 0))
        × (words.new ≡ set words.old word result) }
{
    let first = line.first;
    let second = line.second;
    let made = word_made(n, line, words[first], words[second]);
    words[word] = made;
    made
}
