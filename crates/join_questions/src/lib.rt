// The questions of two sheets that are to be joined: 20, of their widths, 21, of the names, and 22, of their lines (document 02, W-203).

#![tactic(auto)]

ghost use Rattle.std.specs.Prelude.{◌≡◌, ◌<◌, eqb, length};
ghost use Rattle.words.specs.Below.{any};
ghost use Rattle.trail.specs.Joining.{named, name_right, names_right};
ghost use Rattle.sheet.specs.Fields.{trail_of};
ghost use Rattle.sheet.specs.Asking.{verdict};
ghost use Rattle.answers.specs.Answers.{reading_means};
ghost use Rattle.joined_sheets.specs.JoinedSheet.{join_questions};

use answers::Refusal;
use sheet::Header;
use sheet_fields::lines::difference_at;
use sheet_fields::read_sheet::ReadSheet;

// Whether an earlier name is name j's word.
fn named_before(names: &[u64], j: usize) -> bool
    requires { j < length names.now }
    ensures { result ≡ any j (λ i. eqb (named names.now i) (named names.now j)) }
{
    names[..j].contains(&names[j])
}

// Whether name j is a word of the first sheet, named for the first time, with the difference of input j of the second.
fn name_right(first: &ReadSheet, second: &ReadSheet, names: &[u64], j: usize) -> bool
    requires { (length names.now ≡ second.now.header.inputs) × (j < length names.now) }
    ensures { result ≡ name_right (trail_of first.now.bytes.now) (trail_of second.now.bytes.now) names.now j }
{
    let a = first.header;
    let word = names[j] as usize;
    if a.inputs + a.lines <= word {
        return false;
    }
    if named_before(names, j) {
        return false;
    }
    difference_at(first, word) == difference_at(second, j)
}

// Whether the list names one word of the first sheet for each input of the second, as question 21 asks.
fn names_right(first: &ReadSheet, second: &ReadSheet, names: &[u64]) -> bool
    ensures { result ≡ names_right (trail_of first.now.bytes.now) (trail_of second.now.bytes.now) names.now }
{
    if names.len() != second.header.inputs {
        return false;
    }
    for j in 0..names.len() {
        if !name_right(first, second, names, j) {
            return false;
        }
    }
    true
}

// Questions 20 to 22, with the first sheet's parts.
pub fn join_stage(first: &ReadSheet, second: &ReadSheet, names: &[u64]) -> Result<Header, Refusal>
    ensures { reading_means result
        ≡ verdict (join_questions first.now.bytes.now second.now.bytes.now names.now) first.now.header }
{
    let a = first.header;
    let b = second.header;
    if a.width != b.width {
        return Err(Refusal::OtherWidth);
    }
    if !names_right(first, second, names) {
        return Err(Refusal::Names);
    }
    if 248 < a.lines + b.lines {
        return Err(Refusal::JoinedLines);
    }
    Ok(a)
}
