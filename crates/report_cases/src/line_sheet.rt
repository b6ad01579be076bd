// A differential's line, alone in a sheet.
use answers::Refusal;
use buffers::put_number;
use differential::{Differential, LineReport};
use trail::Line;

// The header's block and one block of lines.
const SHEET_BYTES: usize = 1024;

// A differential whose line names input 0 and, where the kind takes two words, input 1.
pub fn differential_of(
    kind: u32,
    n: u32,
    amount: u32,
    constant: u64,
    first: u64,
    second: u64,
    difference: u64,
) -> Differential {
    let named = match kind {
        1 | 5 | 9 => 1,
        _ => 0,
    };
    let line = Line {
        kind,
        amount,
        first: 0,
        second: named,
        constant,
        difference,
    };
    Differential {
        width: n,
        line,
        first,
        second,
    }
}

// What `report::line_report` answers on the sheet whose one line has this differential.
pub fn report_of(d: Differential) -> Result<LineReport, Refusal> {
    let mut sheet = [0u8; SHEET_BYTES];
    report_in(&mut sheet, d)
}

// The same, with the bytes of the sheet, all 0, to write it to. What sealing refuses, the report refuses too.
fn report_in(sheet: &mut [u8; SHEET_BYTES], d: Differential) -> Result<LineReport, Refusal> {
    put_header(sheet, d);
    put_record(sheet, d);
    let _ = sealing::seal(sheet);
    report::line_report(sheet, 0)
}

// The mark, the width, two inputs, one line, and the inputs' differences.
fn put_header(sheet: &mut [u8; SHEET_BYTES], d: Differential) {
    put_number(sheet, 0, 4, 0x54585241);
    put_number(sheet, 4, 1, d.width as u64);
    put_number(sheet, 5, 1, 2);
    put_number(sheet, 6, 2, 1);
    put_number(sheet, 8, 4, d.first);
    put_number(sheet, 12, 4, d.second);
}

// The line's record.
fn put_record(sheet: &mut [u8; SHEET_BYTES], d: Differential) {
    let line = d.line;
    put_number(sheet, 512, 1, line.kind as u64);
    put_number(sheet, 513, 1, line.amount as u64);
    put_number(sheet, 514, 2, line.first as u64);
    put_number(sheet, 516, 2, line.second as u64);
    put_number(sheet, 520, 4, line.constant);
    put_number(sheet, 524, 4, line.difference);
}
