// A sheet's clauses for a SAT solver (document 01). The calls that users make are `clause_counts` and `line_list`.

#![tactic(auto)]

ghost use Rattle.std.specs.Prelude.{◌≡◌};
ghost use Rattle.sheet.specs.Asking.{verdict};
ghost use Rattle.sheet.specs.Fields.{trail_of};
ghost use Rattle.sheet.specs.Questions.{questions};
ghost use Rattle.sheet.specs.declared.Mode.TheVariants.{Read};
ghost use Rattle.clause_sizes.specs.Counts.{counts_of};
ghost use Rattle.clauses.specs.Answers.{counts_means, list_means, list_call};

use answers::Refusal;
use clause_sizes::Counts;
use clause_sizes::counting::both_counts;
use clause_sizes::sizes::list_numbers;
use line_clauses::put_line;
use reading::read;
use sheet_fields::read_sheet::ReadSheet;

// Both counts of a sheet.
pub fn clause_counts(sheet: &[u8]) -> Result<Counts, Refusal>
    ensures { counts_means result ≡ verdict (questions Read sheet.now) (counts_of (trail_of sheet.now)) }
{
    let header = read(sheet)?;
    let sheet = ReadSheet {
        bytes: sheet,
        header,
    };
    Ok(both_counts(&sheet))
}

// Writes the list of line k from the buffer's start: literals, and a 0 after each clause. Counts the numbers.
pub fn line_list(sheet: &[u8], k: usize, out: &mut [i32]) -> Result<usize, Refusal>
    ensures { (list_means result ≡ (list_call sheet.now k out.old).answer)
        × (out.new ≡ (list_call sheet.now k out.old).buffer) }
{
    let header = read(sheet)?;
    if header.lines <= k {
        return Err(Refusal::NoSuchLine);
    }
    let sheet = ReadSheet {
        bytes: sheet,
        header,
    };
    let need = list_numbers(&sheet, k);
    if out.len() < need {
        return Err(Refusal::Room);
    }
    let numbers = put_line(&sheet, k, out, 0);
    Ok(numbers)
}
