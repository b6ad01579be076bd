// Every public call, and every one for C, made with arguments of which nothing is known: so none of them requires anything. A call that
// required something would not be proved here. Nothing uses these functions. Of the exported calls, which no crate can use,
// `tablegull_c` says the same in a module of its own.

#![tactic(auto)]

use tablegull::{
    tablegull_change, tablegull_change_all, tablegull_change_indexed, tablegull_clause_counts,
    tablegull_clause_text, tablegull_index, tablegull_join, tablegull_line_clauses,
    tablegull_line_report, tablegull_read, tablegull_report, tablegull_report_text, tablegull_seal,
    tablegull_totals, tablegull_trial, tablegull_two_runs,
};

// The public calls.
pub fn in_rattle(
    sheet: &mut [u8],
    number: usize,
    words: &[u64],
    bytes: &mut [u8],
    numbers: &mut [i32],
) {
    let _ = reading::read(sheet);
    let _ = report::line_report(sheet, number);
    let _ = report::sheet_totals(sheet);
    let _ = report::write_reports(sheet, bytes);
    let _ = runs::two_runs(sheet, words);
    let _ = clauses::clause_counts(sheet);
    let _ = clauses::line_list(sheet, number, numbers);
    let _ = texts::clause_text(sheet, number, bytes);
    let _ = texts::report_text(sheet, number, bytes);
    let _ = joining::join(sheet, sheet, words, bytes);
    let _ = sealing::seal(sheet);
}

pub fn in_rattle_refused(number: u32, place: u64, out: &mut [u8; 64]) {
    texts::refusal_text(number, place, out);
}

// Those on a line's stated difference.
pub fn in_rattle_changed(sheet: &mut [u8], line: usize, difference: u64, out: &mut [u8]) {
    let _ = changing::trial(sheet, line, difference, out);
    let _ = changing::change(sheet, line, difference);
}

// The one on a list of them.
pub fn in_rattle_listed(sheet: &mut [u8], pairs: &[u64], replies: &mut [u8]) {
    let _ = changing_all::change_all(sheet, pairs, replies);
}

// Those on an index, and on a report beside it.
pub fn in_rattle_indexed(
    sheet: &mut [u8],
    index: &mut [u16],
    report: &mut [u8],
    line: usize,
    difference: u64,
) {
    let _ = indexing::index(sheet, index);
    let _ = changing_indexed::change_indexed(sheet, index, report, line, difference);
}

// The calls for C on a sheet's bytes.
pub fn on_bytes(sheet: &mut [u8], number: u64, out: &mut [u8]) {
    tablegull_read(sheet);
    tablegull_line_report(sheet, number, out);
    tablegull_report(sheet, out);
    tablegull_clause_text(sheet, number, out);
    tablegull_report_text(sheet, number, out);
    tablegull_seal(sheet);
}

// Those that write words.
pub fn on_words(sheet: &[u8], start: &[u64], out: &mut [u64]) {
    tablegull_totals(sheet, out);
    tablegull_two_runs(sheet, start, out);
    tablegull_clause_counts(sheet, out);
}

// The one that writes signed numbers.
pub fn on_numbers(sheet: &[u8], line: u64, out: &mut [i32]) {
    tablegull_line_clauses(sheet, line, out);
}

// The one that takes two sheets.
pub fn on_two_sheets(first: &[u8], second: &[u8], names: &[u64], out: &mut [u8]) {
    tablegull_join(first, second, names, out);
}

// Those on a line's stated difference.
pub fn on_a_difference(sheet: &mut [u8], line: u64, difference: u64, out: &mut [u8]) {
    tablegull_trial(sheet, line, difference, out);
    tablegull_change(sheet, line, difference);
}

// The one on a list of them.
pub fn on_pairs(sheet: &mut [u8], pairs: &[u64], replies: &mut [u8]) {
    tablegull_change_all(sheet, pairs, replies);
}

// Those on an index, and on a report beside it.
pub fn on_an_index(
    sheet: &mut [u8],
    index: &mut [u16],
    report: &mut [u8],
    line: u64,
    difference: u64,
) {
    tablegull_index(sheet, index);
    tablegull_change_indexed(sheet, index, report, line, difference);
}
