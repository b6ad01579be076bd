// The calls that C links, in a static library: each is the call of the same name of `tablegull`, with the same contract, exported. A
// slice is lent as a pointer and a length. Every call answers with the same struct.

#![tactic(auto)]

ghost use Rattle.std.specs.Prelude.{◌≡◌};
ghost use Rattle.sheet.specs.Asking.{verdict};
ghost use Rattle.sheet.specs.Fields.{header_of};
ghost use Rattle.sheet.specs.Questions.{questions};
ghost use Rattle.sheet.specs.declared.Mode.TheVariants.{Read, Seal};
ghost use Rattle.answers.specs.Answers.{answer_of};
ghost use Rattle.sealed_sheets.specs.Sealing.{sealed};
ghost use Rattle.report.specs.Answers.{reports_call};
ghost use Rattle.report_c.specs.Calls.{line_report_call, totals_call};
ghost use Rattle.runs_c.specs.Calls.{outcome_call};
ghost use Rattle.clauses.specs.Answers.{list_call};
ghost use Rattle.clauses_c.specs.Calls.{counts_call};
ghost use Rattle.clause_file.specs.Parts.{clause_text_call};
ghost use Rattle.report_file.specs.Parts.{report_text_call};
ghost use Rattle.joined_sheets.specs.JoinCall.{join_call};
ghost use Rattle.changed_sheets.specs.ChangeCall.{change_call};
ghost use Rattle.change_lists.specs.ChangesCall.{changes_call, changes_sheet};
ghost use Rattle.indexed_changes.specs.IndexedCall.{indexed_call, indexed_sheet};
ghost use Rattle.sheet_indexes.specs.IndexCall.{index_call};
ghost use Rattle.tried_changes.specs.TrialCall.{trial_call};

mod unconditional;

use answers::Answer;

// Asks all questions of a sheet. Counts its lines.
#[unsafe(no_mangle)]
pub extern "C" fn tablegull_read(sheet: &[u8]) -> Answer
    ensures { result ≡ answer_of (verdict (questions Read sheet.now) (header_of sheet.now).lines) }
{
    tablegull::tablegull_read(sheet)
}

// Asks sealing's questions, and writes every block's check. Counts the blocks.
#[unsafe(no_mangle)]
pub extern "C" fn tablegull_seal(sheet: &mut [u8]) -> Answer
    ensures { (result ≡ answer_of (verdict (questions Seal sheet.old) (header_of sheet.old).blocks))
        × (sheet.new ≡ sealed sheet.old) }
{
    tablegull::tablegull_seal(sheet)
}

// Writes one line's bytes of the report buffer. Counts bytes.
#[unsafe(no_mangle)]
pub extern "C" fn tablegull_line_report(sheet: &[u8], line: u64, out: &mut [u8]) -> Answer
    ensures { (result ≡ answer_of (line_report_call sheet.now line out.old).answer)
        × (out.new ≡ (line_report_call sheet.now line out.old).buffer) }
{
    tablegull::tablegull_line_report(sheet, line, out)
}

// Writes the report buffer: 16 bytes a line. Counts bytes.
#[unsafe(no_mangle)]
pub extern "C" fn tablegull_report(sheet: &[u8], out: &mut [u8]) -> Answer
    ensures { (result ≡ answer_of (reports_call sheet.now out.old).answer)
        × (out.new ≡ (reports_call sheet.now out.old).buffer) }
{
    tablegull::tablegull_report(sheet, out)
}

// Writes the impossible lines, the weight in sixteenths and the chains. Counts these three.
#[unsafe(no_mangle)]
pub extern "C" fn tablegull_totals(sheet: &[u8], out: &mut [u64]) -> Answer
    ensures { (result ≡ answer_of (totals_call sheet.now out.old).answer)
        × (out.new ≡ (totals_call sheet.now out.old).buffer) }
{
    tablegull::tablegull_totals(sheet, out)
}

// Writes 1, 0, 0 where the runs follow the trail, else 0, and the line and the bit where they disagree. Counts these three.
#[unsafe(no_mangle)]
pub extern "C" fn tablegull_two_runs(sheet: &[u8], start: &[u64], out: &mut [u64]) -> Answer
    ensures { (result ≡ answer_of (outcome_call sheet.now start.now out.old).answer)
        × (out.new ≡ (outcome_call sheet.now start.now out.old).buffer) }
{
    tablegull::tablegull_two_runs(sheet, start, out)
}

// Writes the counts of variables and of clauses. Counts these two.
#[unsafe(no_mangle)]
pub extern "C" fn tablegull_clause_counts(sheet: &[u8], out: &mut [u64]) -> Answer
    ensures { (result ≡ answer_of (counts_call sheet.now out.old).answer)
        × (out.new ≡ (counts_call sheet.now out.old).buffer) }
{
    tablegull::tablegull_clause_counts(sheet, out)
}

// Writes one line's list: literals, and a 0 after each clause. Counts numbers.
#[unsafe(no_mangle)]
pub extern "C" fn tablegull_line_clauses(sheet: &[u8], line: u64, out: &mut [i32]) -> Answer
    ensures { (result ≡ answer_of (list_call sheet.now line out.old).answer)
        × (out.new ≡ (list_call sheet.now line out.old).buffer) }
{
    tablegull::tablegull_line_clauses(sheet, line, out)
}

// Writes a part of the clause file: part 0 is the header's line, part 1 + k the clauses of line k. Counts bytes.
#[unsafe(no_mangle)]
pub extern "C" fn tablegull_clause_text(sheet: &[u8], part: u64, out: &mut [u8]) -> Answer
    ensures { (result ≡ answer_of (clause_text_call sheet.now part out.old).answer)
        × (out.new ≡ (clause_text_call sheet.now part out.old).buffer) }
{
    tablegull::tablegull_clause_text(sheet, part, out)
}

// Writes a part of the report's text: part k is line k's line, part L the totals. Counts bytes.
#[unsafe(no_mangle)]
pub extern "C" fn tablegull_report_text(sheet: &[u8], part: u64, out: &mut [u8]) -> Answer
    ensures { (result ≡ answer_of (report_text_call sheet.now part out.old).answer)
        × (out.new ≡ (report_text_call sheet.now part out.old).buffer) }
{
    tablegull::tablegull_report_text(sheet, part, out)
}

// Writes the joined sheet of two. Counts bytes.
#[unsafe(no_mangle)]
pub extern "C" fn tablegull_join(
    first: &[u8],
    second: &[u8],
    names: &[u64],
    out: &mut [u8],
) -> Answer
    ensures { (result ≡ answer_of (join_call first.now second.now names.now out.old).answer)
        × (out.new ≡ (join_call first.now second.now names.now out.old).buffer) }
{
    tablegull::tablegull_join(first, second, names, out)
}

// Replaces one stated difference and renews the check of its block. Counts nothing.
#[unsafe(no_mangle)]
pub extern "C" fn tablegull_change(sheet: &mut [u8], line: u64, difference: u64) -> Answer
    ensures { (result ≡ answer_of (change_call sheet.old line difference).answer)
        × (sheet.new ≡ (change_call sheet.old line difference).buffer) }
{
    tablegull::tablegull_change(sheet, line, difference)
}

// Makes the change of each pair of line and difference, in order, and writes a reply for each. Counts the pairs.
#[unsafe(no_mangle)]
pub extern "C" fn tablegull_change_all(
    sheet: &mut [u8],
    pairs: &[u64],
    replies: &mut [u8],
) -> Answer
    ensures { (result ≡ answer_of (changes_call sheet.old pairs.now replies.old).answer)
        × (replies.new ≡ (changes_call sheet.old pairs.now replies.old).buffer)
        × (sheet.new ≡ changes_sheet sheet.old pairs.now replies.old) }
{
    tablegull::tablegull_change_all(sheet, pairs, replies)
}

// Writes the report buffer that the sheet would have with one stated difference replaced. Counts bytes.
#[unsafe(no_mangle)]
pub extern "C" fn tablegull_trial(
    sheet: &[u8],
    line: u64,
    difference: u64,
    out: &mut [u8],
) -> Answer
    ensures { (result ≡ answer_of (trial_call sheet.now line difference out.old).answer)
        × (out.new ≡ (trial_call sheet.now line difference out.old).buffer) }
{
    tablegull::tablegull_trial(sheet, line, difference, out)
}

// Writes the index: for each word how many lines use it, and those lines. Counts numbers.
#[unsafe(no_mangle)]
pub extern "C" fn tablegull_index(sheet: &[u8], out: &mut [u16]) -> Answer
    ensures { (result ≡ answer_of (index_call sheet.now out.old).answer)
        × (out.new ≡ (index_call sheet.now out.old).buffer) }
{
    tablegull::tablegull_index(sheet, out)
}

// Replaces one stated difference, renews the check of its block, and renews the report at the lines that the index names. Counts
// nothing.
#[unsafe(no_mangle)]
pub extern "C" fn tablegull_change_indexed(
    sheet: &mut [u8],
    index: &[u16],
    report: &mut [u8],
    line: u64,
    difference: u64,
) -> Answer
    ensures { (result ≡ answer_of (indexed_call sheet.old index.now report.old line difference).answer)
        × (report.new ≡ (indexed_call sheet.old index.now report.old line difference).buffer)
        × (sheet.new ≡ indexed_sheet sheet.old index.now report.old line difference) }
{
    tablegull::tablegull_change_indexed(sheet, index, report, line, difference)
}
