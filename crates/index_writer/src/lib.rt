// The index of a sheet that was read: the lines that use each word (document 02, W-208). One pass over the lines counts each word's,
// which gives every word its place in the index; a second puts each line behind those before it. So the time grows with words, lines
// and uses, and no word's lines are searched for.

#![tactic(auto)]

ghost use Rattle.std.specs.Prelude.{◌≡◌, ◌+◌, ◌^◌, ◌<◌, ◌≤◌, length, get_or, set};
ghost use Rattle.buffers.specs.Overwrite.{Wrote};
ghost use Rattle.trail.specs.WellFormed.{most_words};
ghost use Rattle.sheet.specs.Fields.{trail_of};
ghost use Rattle.sheet_indexes.specs.Users.{users};
ghost use Rattle.sheet_indexes.specs.Index.{word_count, index_of, part_start};
ghost use Rattle.index_writer.specs.Placing.{names_another, users_before, Kept, Placed};

use sheet_fields::lines::line_at;
use sheet_fields::read_sheet::ReadSheet;
use trail::Line;

// The words of the longest sheet.
pub const WORDS: usize = 256;

// The numbers of the longest index.
pub const INDEX_NUMBERS: usize = 752;

// Finds where each word's part of the index starts, in an array of zeros. Returns the index's length.
pub fn index_starts(sheet: &ReadSheet, starts: &mut [u16; WORDS]) -> usize
    requires { Kept most_words (λ j. 0) starts.old }
    ensures { (result ≡ length (index_of (trail_of sheet.now.bytes.now)))
        × Kept (word_count (trail_of sheet.now.bytes.now)) (part_start (trail_of sheet.now.bytes.now)) starts.new }
{
    count_users(sheet, starts);
    let words = sheet.header.inputs + sheet.header.lines;
    let mut next = 0;
    for j in 0..words {
        let users = starts[j] as usize;
        starts[j] = next as u16;
        next += 1 + users;
    }
    next
}

// Writes the index from the buffer's start, from where each word's part starts; the array has each part's last position then. Returns
// the next position.
pub fn put_index(sheet: &ReadSheet, starts: &mut [u16; WORDS], out: &mut [u16]) -> usize
    requires { Kept (word_count (trail_of sheet.now.bytes.now)) (part_start (trail_of sheet.now.bytes.now)) starts.old
        × (length (index_of (trail_of sheet.now.bytes.now)) ≤ length out.old) }
    ensures { Wrote 0 (index_of (trail_of sheet.now.bytes.now)) out.old result out.new }
{
    put_users(sheet, starts, out);
    let words = sheet.header.inputs + sheet.header.lines;
    let mut at = 0;
    for j in 0..words {
        let last = starts[j] as usize;
        out[at] = (last - at) as u16;
        at = last + 1;
    }
    at
}

// Whether a line names a second word beside that of its first operand.
fn names_another(line: Line) -> bool
    ensures { result ≡ names_another line }
{
    let kind = line.kind;
    match kind {
        1 | 5 | 9 => line.first != line.second,
        _ => false,
    }
}

// Counts the lines that name each word.
fn count_users(sheet: &ReadSheet, counts: &mut [u16; WORDS])
    requires { Kept most_words (λ j. 0) counts.old }
    ensures { Kept most_words (users_before (trail_of sheet.now.bytes.now) sheet.now.header.lines) counts.new }
{
    for i in 0..sheet.header.lines {
        let line = line_at(sheet, i);
        let first = line.first;
        counts[first] += 1;
        if names_another(line) {
            let second = line.second;
            counts[second] += 1;
        }
    }
}

// Puts each line into the parts of the words that it names. What was each part's start is then its last position.
fn put_users(sheet: &ReadSheet, last: &mut [u16; WORDS], out: &mut [u16])
    requires { Kept (word_count (trail_of sheet.now.bytes.now)) (part_start (trail_of sheet.now.bytes.now)) last.old
        × (length (index_of (trail_of sheet.now.bytes.now)) ≤ length out.old) }
    ensures { Placed (trail_of sheet.now.bytes.now) (λ j. length (users (trail_of sheet.now.bytes.now) j))
        out.old last.new out.new }
{
    for i in 0..sheet.header.lines {
        let line = line_at(sheet, i);
        put_user(last, out, line.first, i);
        if names_another(line) {
            put_user(last, out, line.second, i);
        }
    }
}

// Puts a line behind the last number of a word's part.
fn put_user(last: &mut [u16; WORDS], out: &mut [u16], word: usize, line: usize)
    requires { (word < most_words) × (get_or last.old word 0 + 1 < 2 ^ 16) × (get_or last.old word 0 + 1 < length out.old)
        × (line < 2 ^ 16) }
    ensures { (last.new ≡ set last.old word (get_or last.old word 0 + 1))
        × (out.new ≡ set out.old (get_or last.old word 0 + 1) line) }
{
    let at = last[word] + 1;
    last[word] = at;
    out[at as usize] = line as u16;
}
