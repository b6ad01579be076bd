// The calls on reports as C takes them: bytes or numbers in a lent buffer, and a struct for the answer.

#![tactic(auto)]

ghost use Rattle.std.specs.Prelude.{◌≡◌};
ghost use Rattle.answers.specs.Answers.{count_means, answer_of};
ghost use Rattle.report.specs.Answers.{reports_call};
ghost use Rattle.report_c.specs.Calls.{line_report_call, totals_call};

use answers::{Answer, Refusal};
use buffers::put_all;
use reading::read;
use report::write_reports;
use report_buffer::{REPORT_BYTES, put_report};
use sheet_fields::read_sheet::ReadSheet;
use sheet_reports::{report_at, sum_reports};

// Writes one line's bytes of the report buffer. Counts bytes.
pub fn line_report(sheet: &[u8], line: u64, out: &mut [u8]) -> Answer
    ensures { (result ≡ answer_of (line_report_call sheet.now line out.old).answer)
        × (out.new ≡ (line_report_call sheet.now line out.old).buffer) }
{
    Answer::of(write_report(sheet, line as usize, out))
}

// Writes the report of line k.
fn write_report(sheet: &[u8], k: usize, out: &mut [u8]) -> Result<usize, Refusal>
    ensures { (count_means result ≡ (line_report_call sheet.now k out.old).answer)
        × (out.new ≡ (line_report_call sheet.now k out.old).buffer) }
{
    let header = read(sheet)?;
    if header.lines <= k {
        return Err(Refusal::NoSuchLine);
    }
    if out.len() < REPORT_BYTES {
        return Err(Refusal::Room);
    }
    let sheet = ReadSheet {
        bytes: sheet,
        header,
    };
    Ok(put_report(out, 0, report_at(&sheet, k)))
}

// Writes the impossible lines, the weight in sixteenths and the chains. Counts these three.
pub fn totals(sheet: &[u8], out: &mut [u64]) -> Answer
    ensures { (result ≡ answer_of (totals_call sheet.now out.old).answer)
        × (out.new ≡ (totals_call sheet.now out.old).buffer) }
{
    Answer::of(write_totals(sheet, out))
}

// Writes the totals' numbers.
fn write_totals(sheet: &[u8], out: &mut [u64]) -> Result<usize, Refusal>
    ensures { (count_means result ≡ (totals_call sheet.now out.old).answer)
        × (out.new ≡ (totals_call sheet.now out.old).buffer) }
{
    let header = read(sheet)?;
    if out.len() < 3 {
        return Err(Refusal::Room);
    }
    let sheet = ReadSheet {
        bytes: sheet,
        header,
    };
    let sums = sum_reports(&sheet);
    let weight = sums.weight;
    let numbers = [sums.impossible as u64, weight.0 as u64, sums.chains as u64];
    Ok(put_all(out, &numbers))
}

// Writes the report buffer: 16 bytes a line. Counts bytes.
pub fn reports(sheet: &[u8], out: &mut [u8]) -> Answer
    ensures { (result ≡ answer_of (reports_call sheet.now out.old).answer)
        × (out.new ≡ (reports_call sheet.now out.old).buffer) }
{
    Answer::of(write_reports(sheet, out))
}
