// Changes one stated difference of a sheet, or tries a change first (document 02, W-206). The calls that users make are `change` and
// `trial`.

#![tactic(auto)]

ghost use Rattle.std.specs.Prelude.{◌≡◌};
ghost use Rattle.answers.specs.Answers.{count_means};
ghost use Rattle.changed_sheets.specs.ChangeCall.{change_call};
ghost use Rattle.tried_changes.specs.TrialCall.{trial_call};
ghost use Rattle.changing.specs.Answers.{change_means};

use answers::Refusal;
use changed_reports::put_changed_reports;
use reading::read;
use report_buffer::REPORT_BYTES;
use sheet_changes::{change_difference, change_stage};
use sheet_fields::read_sheet::ReadSheet;

// Replaces line k's stated difference, and renews the check of the line's block. A refusal changes no byte.
pub fn change(sheet: &mut [u8], k: usize, difference: u64) -> Result<(), Refusal>
    ensures { (change_means result ≡ (change_call sheet.old k difference).answer)
        × (sheet.new ≡ (change_call sheet.old k difference).buffer) }
{
    let header = read(sheet)?;
    change_stage(header, k, difference)?;
    change_difference(sheet, header, k, difference);
    Ok(())
}

// Writes the report that the sheet would have, were line k's stated difference another. The sheet is left whole.
// Returns how many bytes that is.
pub fn trial(sheet: &[u8], k: usize, difference: u64, out: &mut [u8]) -> Result<usize, Refusal>
    ensures { (count_means result ≡ (trial_call sheet.now k difference out.old).answer)
        × (out.new ≡ (trial_call sheet.now k difference out.old).buffer) }
{
    let parts = read(sheet)?;
    change_stage(parts, k, difference)?;
    let need = REPORT_BYTES * parts.lines;
    if out.len() < need {
        return Err(Refusal::Room);
    }
    let sheet = ReadSheet {
        bytes: sheet,
        header: parts,
    };
    Ok(put_changed_reports(&sheet, k, difference, out))
}
