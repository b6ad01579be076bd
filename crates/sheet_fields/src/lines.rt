// Lines and differences of an accepted sheet, for the crates that report on it, run it or write its clauses.
ghost use Rattle.std.specs.Prelude.{◌≡◌, ◌+◌, ◌<◌};
ghost use Rattle.trail.specs.Trail.{line_at, difference_at};
ghost use Rattle.sheet.specs.Fields.{trail_of};

use crate::read_sheet::ReadSheet;
use crate::{input_difference, record_of};
use trail::Line;

// Line k.
pub fn line_at(sheet: &ReadSheet, k: usize) -> Line
    requires { k < sheet.now.header.lines }
    ensures { result ≡ line_at (trail_of sheet.now.bytes.now) k }
{
    let record = record_of(sheet.bytes, sheet.header, k);
    Line {
        kind: record.kind,
        amount: record.amount,
        first: record.first,
        second: record.second,
        constant: record.constant,
        difference: record.difference,
    }
}

// The difference of word j: an input's, or the one that its line states.
pub fn difference_at(sheet: &ReadSheet, j: usize) -> u64
    requires { j < sheet.now.header.inputs + sheet.now.header.lines }
    ensures { result ≡ difference_at (trail_of sheet.now.bytes.now) j }
{
    let header = sheet.header;
    let inputs = header.inputs;
    if j < inputs {
        return input_difference(sheet.bytes, j, header.form);
    }
    let line = line_at(sheet, j - inputs);
    line.difference
}
