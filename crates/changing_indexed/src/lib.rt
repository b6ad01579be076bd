// Changes one stated difference of a sheet that has its index and its report beside it (document 02, W-208). The call that users make
// is `change_indexed`.

#![tactic(auto)]

ghost use Rattle.std.specs.Prelude.{◌≡◌};
ghost use Rattle.changing.specs.Answers.{change_means};
ghost use Rattle.indexed_changes.specs.IndexedCall.{indexed_call, indexed_sheet};

use answers::Refusal;
use lent_questions::are_own;
use reading::read;
use renewed_reports::renew_reports;
use sheet_changes::{change_difference, change_stage};
use sheet_fields::read_sheet::ReadSheet;

// Replaces line k's stated difference, renews the check of the line's block, and renews the report at the lines that the index names.
// Index and report must be the sheet's own. A refusal changes no byte.
pub fn change_indexed(
    sheet: &mut [u8],
    index: &[u16],
    report: &mut [u8],
    k: usize,
    difference: u64,
) -> Result<(), Refusal>
    ensures { (change_means result ≡ (indexed_call sheet.old index.now report.old k difference).answer)
        × (report.new ≡ (indexed_call sheet.old index.now report.old k difference).buffer)
        × (sheet.new ≡ indexed_sheet sheet.old index.now report.old k difference) }
{
    let header = read(sheet)?;
    let lent = ReadSheet {
        bytes: sheet,
        header,
    };
    if !are_own(&lent, index, report) {
        return Err(Refusal::NotOwn);
    }
    change_stage(header, k, difference)?;
    change_difference(sheet, header, k, difference);
    let changed = ReadSheet {
        bytes: sheet,
        header,
    };
    renew_reports(&changed, index, k, report);
    Ok(())
}
