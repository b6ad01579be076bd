// The clauses as C takes them: numbers in a lent buffer, and a struct for the answer.

#![tactic(auto)]

ghost use Rattle.std.specs.Prelude.{◌≡◌};
ghost use Rattle.answers.specs.Answers.{count_means, answer_of};
ghost use Rattle.clauses.specs.Answers.{list_call};
ghost use Rattle.clauses_c.specs.Calls.{counts_call};

use answers::{Answer, Refusal};
use buffers::put_all;
use clause_sizes::counting::both_counts;
use clauses::line_list;
use reading::read;
use sheet_fields::read_sheet::ReadSheet;

// Writes the counts of variables and of clauses. Counts these two.
pub fn clause_counts(sheet: &[u8], out: &mut [u64]) -> Answer
    ensures { (result ≡ answer_of (counts_call sheet.now out.old).answer)
        × (out.new ≡ (counts_call sheet.now out.old).buffer) }
{
    Answer::of(write_counts(sheet, out))
}

// Writes the counts' numbers.
fn write_counts(sheet: &[u8], out: &mut [u64]) -> Result<usize, Refusal>
    ensures { (count_means result ≡ (counts_call sheet.now out.old).answer)
        × (out.new ≡ (counts_call sheet.now out.old).buffer) }
{
    let header = read(sheet)?;
    if out.len() < 2 {
        return Err(Refusal::Room);
    }
    let counts = both_counts(&ReadSheet {
        bytes: sheet,
        header,
    });
    let numbers = [counts.variables as u64, counts.clauses as u64];
    Ok(put_all(out, &numbers))
}

// Writes one line's list: literals, and a 0 after each clause. Counts numbers.
pub fn line_clauses(sheet: &[u8], line: u64, out: &mut [i32]) -> Answer
    ensures { (result ≡ answer_of (list_call sheet.now line out.old).answer)
        × (out.new ≡ (list_call sheet.now line out.old).buffer) }
{
    Answer::of(line_list(sheet, line as usize, out))
}
