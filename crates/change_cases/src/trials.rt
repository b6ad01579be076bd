// What trying a change answers for buffers of three lengths, held against changing a copy and reporting on it.
ghost use Rattle.std.specs.Prelude.{◌≤◌};

use answers::Refusal;
use case_text::checksum::with_bytes;
use case_text::print::print_refused;
use changing::trial;
use report::write_reports;
use report_buffer::REPORT_BYTES;
use report_cases::whole::lines_of;
use std::io;
use std::io::Write;

// Room for the reports of the longest sheet, and some bytes more.
const BUFFER_BYTES: usize = 4096;

// A buffer one byte short of the need, one that just holds the reports, and a longer one. The copy is given with what changing it
// answered.
pub fn print_trials(
    out: &mut impl Write,
    sheet: &[u8],
    k: usize,
    difference: u64,
    made: Result<(), Refusal>,
    copy: &[u8],
) -> io::Result<()> {
    let need = REPORT_BYTES * lines_of(sheet);
    if 0 < need {
        print_trial(out, sheet, k, difference, made, copy, need - 1)?;
    }
    print_trial(out, sheet, k, difference, made, copy, need)?;
    print_trial(out, sheet, k, difference, made, copy, need + 5)
}

// What is answered for a buffer of a length. Before, each of its bytes is A5, and each behind it.
fn print_trial(
    out: &mut impl Write,
    sheet: &[u8],
    k: usize,
    difference: u64,
    made: Result<(), Refusal>,
    copy: &[u8],
    length: usize,
) -> io::Result<()>
    requires { length ≤ 4096 }
{
    let mut tried = [0xA5u8; BUFFER_BYTES];
    let mut reported = tried;
    write!(out, "\n  buffer of {length}")?;
    let answer = trial(sheet, k, difference, &mut tried[0..length]);
    let wanted = report_changed(made, copy, &mut reported[0..length]);
    print_held(out, answer, wanted, &tried, &reported)
}

// What a trial answered, ` written BYTES` or a refusal, a checksum of the bytes that have changed, and whether answer and bytes are
// the wanted ones.
fn print_held(
    out: &mut impl Write,
    answer: Result<usize, Refusal>,
    wanted: Result<usize, Refusal>,
    tried: &[u8; BUFFER_BYTES],
    reported: &[u8; BUFFER_BYTES],
) -> io::Result<()> {
    match answer {
        Ok(bytes) => write!(out, " written {bytes}")?,
        Err(refusal) => print_refused(out, refusal.number(), refusal.place())?,
    }
    let checksum = with_bytes(0, tried, 0xA5);
    if answer == wanted && tried == reported {
        return write!(out, ", checksum {checksum}, as reported");
    }
    write!(out, ", checksum {checksum}, not as reported")
}

// What changing a copy and reporting on it answers: a refusal of the change, or what the reports come to.
fn report_changed(
    made: Result<(), Refusal>,
    copy: &[u8],
    out: &mut [u8],
) -> Result<usize, Refusal> {
    made?;
    write_reports(copy, out)
}
