// Two runs as C takes them: numbers in a lent buffer, and a struct for the answer.

#![tactic(auto)]

ghost use Rattle.std.specs.Prelude.{◌≡◌, ◌≤◌, length};
ghost use Rattle.buffers.specs.Overwrite.{Wrote};
ghost use Rattle.answers.specs.Answers.{count_means, answer_of};
ghost use Rattle.sheet_runs.specs.Outcome.{outcome_means};
ghost use Rattle.runs_c.specs.Calls.{outcome_numbers, outcome_call};

use answers::{Answer, Refusal};
use buffers::put_all;
use reading::read;
use sheet_fields::read_sheet::ReadSheet;
use sheet_runs::RunsOutcome;
use sheet_runs::lines::run_lines;
use sheet_runs::start::is_start;

// Writes 1, 0, 0 where the runs follow the trail, else 0, and the line and the bit where they disagree. Counts these three.
pub fn two_runs(sheet: &[u8], start: &[u64], out: &mut [u64]) -> Answer
    ensures { (result ≡ answer_of (outcome_call sheet.now start.now out.old).answer)
        × (out.new ≡ (outcome_call sheet.now start.now out.old).buffer) }
{
    Answer::of(write_outcome(sheet, start, out))
}

// Makes the runs, and writes the outcome's numbers.
fn write_outcome(sheet: &[u8], start: &[u64], out: &mut [u64]) -> Result<usize, Refusal>
    ensures { (count_means result ≡ (outcome_call sheet.now start.now out.old).answer)
        × (out.new ≡ (outcome_call sheet.now start.now out.old).buffer) }
{
    let header = read(sheet)?;
    if out.len() < 3 {
        return Err(Refusal::Room);
    }
    if !is_start(header, start) {
        return Err(Refusal::Start);
    }
    let sheet = ReadSheet {
        bytes: sheet,
        header,
    };
    Ok(put_outcome(out, run_lines(&sheet, start)))
}

// Writes the numbers that tell an outcome.
fn put_outcome(out: &mut [u64], outcome: RunsOutcome) -> usize
    requires { 3 ≤ length out.old }
    ensures { Wrote 0 (outcome_numbers (outcome_means outcome)) out.old result out.new }
{
    match outcome {
        RunsOutcome::Follows => put_all(out, &[1, 0, 0]),
        RunsOutcome::Disagree(line, bit) => put_all(out, &[0, line as u64, bit as u64]),
    }
}
