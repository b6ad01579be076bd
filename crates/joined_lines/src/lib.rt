// The lines of the joined trail of two sheets that were read (document 02, W-203).

#![tactic(auto)]

ghost use Rattle.std.specs.Prelude.{◌≡◌, cond, ◌+◌, ◌<◌, length};
ghost use Rattle.trail.specs.Kinds.{kind_of, uses_second};
ghost use Rattle.trail.specs.Trail.{Trail, input_count, line_count, line_at};
ghost use Rattle.trail.specs.Joining.{joined_word, joined_line, joined};
ghost use Rattle.sheet.specs.Fields.{trail_of};
ghost use Rattle.sheet.specs.Facts.{Limited};

use sheet::Header;
use sheet_fields::lines::line_at;
use sheet_fields::read_sheet::ReadSheet;
use trail::Line;

// Word j of the second trail, renumbered: the word that is named for an input; a line's word behind all of the first's.
fn joined_word(a: Header, b: Header, names: &[u64], j: usize) -> usize
    requires { Limited a × Limited b × (length names.now ≡ b.inputs) × (j < b.inputs + b.lines) }
    ensures { (t u : Trail) → input_count t ≡ a.inputs → line_count t ≡ a.lines → input_count u ≡ b.inputs
        → result ≡ joined_word t u names.now j }
{
    let inputs = b.inputs;
    if j < inputs {
        return names[j] as usize;
    }
    a.inputs + a.lines + (j - inputs)
}

// The second operand of a line of the second trail, renumbered if the kind uses it.
fn joined_second(a: Header, b: Header, names: &[u64], line: Line) -> usize
    requires { Limited a × Limited b × (length names.now ≡ b.inputs) × (line.second < b.inputs + b.lines) }
    ensures { (t u : Trail) → input_count t ≡ a.inputs → line_count t ≡ a.lines → input_count u ≡ b.inputs
        → result ≡ cond (uses_second (kind_of line.kind)) (joined_word t u names.now line.second) 0 }
{
    let kind = line.kind;
    match kind {
        1 | 5 | 9 => joined_word(a, b, names, line.second),
        _ => 0,
    }
}

// A line of the second trail with its operands renumbered.
fn joined_line(a: Header, b: Header, names: &[u64], line: Line) -> Line
    requires { Limited a × Limited b × (length names.now ≡ b.inputs) × (line.first < b.inputs + b.lines)
        × (line.second < b.inputs + b.lines) }
    ensures { (t u : Trail) → input_count t ≡ a.inputs → line_count t ≡ a.lines → input_count u ≡ b.inputs
        → result ≡ joined_line t u names.now line }
{
    let first_word = joined_word(a, b, names, line.first);
    let second_word = joined_second(a, b, names, line);
    Line {
        kind: line.kind,
        amount: line.amount,
        first: first_word,
        second: second_word,
        constant: line.constant,
        difference: line.difference,
    }
}

// Line k of the joined trail. Past its last line there is none, and the record of none is zero.
pub fn joined_line_at(first: &ReadSheet, second: &ReadSheet, names: &[u64], k: usize) -> Line
    requires { length names.now ≡ second.now.header.inputs }
    ensures { result ≡ line_at (joined (trail_of first.now.bytes.now) (trail_of second.now.bytes.now) names.now) k }
{
    let a = first.header;
    let b = second.header;
    if k < a.lines {
        return line_at(first, k);
    }
    if k < a.lines + b.lines {
        return joined_line(a, b, names, line_at(second, k - a.lines));
    }
    Line {
        kind: 0,
        amount: 0,
        first: 0,
        second: 0,
        constant: 0,
        difference: 0,
    }
}
