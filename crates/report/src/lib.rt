// The calls on a sheet's reports (document 01, "Line reports"; document 02, W-202): `line_report`, `sheet_totals` and `write_reports`.

#![tactic(auto)]

ghost use Rattle.std.specs.Prelude.{◌≡◌};
ghost use Rattle.sheet.specs.Asking.{verdict};
ghost use Rattle.sheet.specs.Fields.{trail_of};
ghost use Rattle.sheet.specs.Questions.{questions};
ghost use Rattle.sheet.specs.declared.Mode.TheVariants.{Read};
ghost use Rattle.trail_reports.specs.Lines.{line_report};
ghost use Rattle.trail_reports.specs.Totals.{sheet_totals};
ghost use Rattle.report.specs.Answers.{line_means, totals_means, buffer_means, line_asks, reports_call};

use answers::Refusal;
use differential::LineReport;
use reading::read;
use report_buffer::{REPORT_BYTES, put_reports};
use sheet_fields::read_sheet::ReadSheet;
use sheet_reports::{report_at, sum_reports};
use trail_reports::Totals;

// The report of line k.
pub fn line_report(sheet: &[u8], k: usize) -> Result<LineReport, Refusal>
    ensures { line_means result ≡ verdict (line_asks sheet.now k) (line_report (trail_of sheet.now) k) }
{
    let header = read(sheet)?;
    if header.lines <= k {
        return Err(Refusal::NoSuchLine);
    }
    let sheet = ReadSheet {
        bytes: sheet,
        header,
    };
    Ok(report_at(&sheet, k))
}

// The sheet's totals.
pub fn sheet_totals(sheet: &[u8]) -> Result<Totals, Refusal>
    ensures { totals_means result ≡ verdict (questions Read sheet.now) (sheet_totals (trail_of sheet.now)) }
{
    let header = read(sheet)?;
    Ok(sum_reports(&ReadSheet {
        bytes: sheet,
        header,
    }))
}

// Writes the reports of all lines, 16 bytes each, from the buffer's start. Counts the bytes.
pub fn write_reports(sheet: &[u8], out: &mut [u8]) -> Result<usize, Refusal>
    ensures { (buffer_means result ≡ (reports_call sheet.now out.old).answer)
        × (out.new ≡ (reports_call sheet.now out.old).buffer) }
{
    let header = read(sheet)?;
    let need = REPORT_BYTES * header.lines;
    if out.len() < need {
        return Err(Refusal::Room);
    }
    let sheet = ReadSheet {
        bytes: sheet,
        header,
    };
    let bytes = put_reports(&sheet, out);
    Ok(bytes)
}
