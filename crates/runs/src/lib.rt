// The call on a sheet's two runs (document 01, "Two runs"): `two_runs`.

#![tactic(auto)]

ghost use Rattle.std.specs.Prelude.{◌≡◌};
ghost use Rattle.sheet.specs.Asking.{verdict};
ghost use Rattle.sheet.specs.Fields.{trail_of};
ghost use Rattle.sheet_runs.specs.Outcome.{outcome};
ghost use Rattle.runs.specs.Answers.{runs_means, runs_asks};

use answers::Refusal;
use reading::read;
use sheet_fields::read_sheet::ReadSheet;
use sheet_runs::RunsOutcome;
use sheet_runs::lines::run_lines;
use sheet_runs::start::is_start;

// Runs the sheet's program on the starting words and on those XOR the input differences.
pub fn two_runs(sheet: &[u8], start: &[u64]) -> Result<RunsOutcome, Refusal>
    ensures { runs_means result ≡ verdict (runs_asks sheet.now start.now)
        (outcome (trail_of sheet.now) start.now) }
{
    let header = read(sheet)?;
    if !is_start(header, start) {
        return Err(Refusal::Start);
    }
    Ok(run_lines(
        &ReadSheet {
            bytes: sheet,
            header,
        },
        start,
    ))
}
