// The index, and a change lent index and report, as C takes them: a struct for the answer.

#![tactic(auto)]

ghost use Rattle.std.specs.Prelude.{◌≡◌};
ghost use Rattle.answers.specs.Answers.{answer_of};
ghost use Rattle.indexed_changes.specs.IndexedCall.{indexed_call, indexed_sheet};
ghost use Rattle.sheet_indexes.specs.IndexCall.{index_call};

use answers::Answer;

// Writes the index. Counts its numbers.
pub fn index(sheet: &[u8], out: &mut [u16]) -> Answer
    ensures { (result ≡ answer_of (index_call sheet.now out.old).answer)
        × (out.new ≡ (index_call sheet.now out.old).buffer) }
{
    Answer::of(indexing::index(sheet, out))
}

// Changes one stated difference and renews the report. Counts nothing.
pub fn change_indexed(
    sheet: &mut [u8],
    index: &[u16],
    report: &mut [u8],
    line: u64,
    difference: u64,
) -> Answer
    ensures { (result ≡ answer_of (indexed_call sheet.old index.now report.old line difference).answer)
        × (report.new ≡ (indexed_call sheet.old index.now report.old line difference).buffer)
        × (sheet.new ≡ indexed_sheet sheet.old index.now report.old line difference) }
{
    let changed = changing_indexed::change_indexed(sheet, index, report, line as usize, difference);
    Answer::of(changed.map(|()| 0))
}
