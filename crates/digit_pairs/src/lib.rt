// Numbers below 1,000,000 in decimal, two digits at a time out of a table: a clause file has over a million of them. The table is
// filled by whoever writes many numbers, and lent to each.

#![tactic(auto)]

ghost use Rattle.std.specs.Prelude.{◌+◌, ◌≤◌, ◌<◌, length};
ghost use Rattle.buffers.specs.Overwrite.{Wrote};
ghost use Rattle.decimal.specs.Decimal.{decimal};
ghost use Rattle.digit_pairs.specs.Pairs.{two_digits, PairTable};

// The table's bytes: two for each number below 100.
pub const TABLE_BYTES: usize = 200;

// The table.
#[derive(Clone, Copy)]
pub struct DigitPairs {
    pub bytes: [u8; TABLE_BYTES],
    pub ghost filled: { PairTable bytes },
}

// Fills the table.
pub fn digit_pairs() -> DigitPairs
    ensures { PairTable result.bytes }
{
    let mut table = [0u8; TABLE_BYTES];
    for v in 0..100 {
        table[2 * v] = b'0' + (v / 10) as u8;
        table[2 * v + 1] = b'0' + (v % 10) as u8;
    }
    DigitPairs { bytes: table }
}

// Writes a number below 1,000,000 in decimal from a position on. Returns the next position.
pub fn put_quick(out: &mut [u8], at: usize, table: &DigitPairs, value: usize) -> usize
    requires { (value < 1000000) × (at + length (decimal value) ≤ length out.old) }
    ensures { Wrote at (decimal value) out.old result out.new }
{
    if value < 100 {
        return put_short(out, at, table, value);
    }
    if value < 10000 {
        let low = put_short(out, at, table, value / 100);
        return put_pair(out, low, table, value % 100);
    }
    let middle = put_short(out, at, table, value / 10000);
    let low = put_pair(out, middle, table, value / 100 % 100);
    put_pair(out, low, table, value % 100)
}

// Writes a number below 100, with one digit or two.
fn put_short(out: &mut [u8], at: usize, table: &DigitPairs, value: usize) -> usize
    requires { (value < 100) × (at + length (decimal value) ≤ length out.old) }
    ensures { Wrote at (decimal value) out.old result out.new }
{
    if value < 10 {
        out[at] = b'0' + value as u8;
        return at + 1;
    }
    put_pair(out, at, table, value)
}

// Writes both digits of a number below 100.
fn put_pair(out: &mut [u8], at: usize, table: &DigitPairs, value: usize) -> usize
    requires { (value < 100) × (at + 2 ≤ length out.old) }
    ensures { Wrote at (two_digits value) out.old result out.new }
{
    out[at] = table.bytes[2 * value];
    out[at + 1] = table.bytes[2 * value + 1];
    at + 2
}
