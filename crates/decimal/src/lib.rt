// Text written into a lent buffer of bytes: a text as it is, and a number in decimal. Each writer takes the position to write at and
// returns the next one.

#![tactic(auto)]

ghost use Rattle.std.specs.Prelude.{◌≡◌, ◌++◌, ◌+◌, ◌≤◌, ◌<◌, length};
ghost use Rattle.buffers.specs.Overwrite.{Wrote};
ghost use Rattle.decimal.specs.Decimal.{decimal, spaced, behind};

// Writes a text as it is.
pub fn put_text(out: &mut [u8], at: usize, text: &[u8]) -> usize
    requires { at + length text.now ≤ length out.old }
    ensures { Wrote at text.now out.old result out.new }
{
    let next = at + text.len();
    out[at..next].copy_from_slice(text);
    next
}

// Writes a number in decimal, its last digit first. What is left of it shrinks, and one digit needs no division: a `for` over the
// places takes half as long again.
pub fn put_decimal(out: &mut [u8], at: usize, value: u64) -> usize
    requires { at + length (decimal value) ≤ length out.old }
    ensures { Wrote at (decimal value) out.old result out.new }
{
    let next = at + decimal_length(value);
    let mut rest = value;
    let mut left = next;
    while 10 <= rest {
        left -= 1;
        out[left] = b'0' + (rest % 10) as u8;
        rest /= 10;
    }
    out[at] = b'0' + rest as u8;
    next
}

// Writes a number after a blank.
pub fn put_spaced(out: &mut [u8], at: usize, value: u64) -> usize
    requires { at + length (spaced value) ≤ length out.old }
    ensures { Wrote at (spaced value) out.old result out.new }
{
    out[at] = b' ';
    put_decimal(out, at + 1, value)
}

// Writes a word, then numbers, each after a blank, and the line's end.
pub fn put_line(out: &mut [u8], at: usize, word: &[u8], numbers: &[u64]) -> usize
    requires { at + length (word.now ++ behind numbers.now) ≤ length out.old }
    ensures { Wrote at (word.now ++ behind numbers.now) out.old result out.new }
{
    let next = put_text(out, at, word);
    put_numbers(out, next, numbers)
}

// Writes numbers, each after a blank, and the line's end.
fn put_numbers(out: &mut [u8], at: usize, numbers: &[u64]) -> usize
    requires { at + length (behind numbers.now) ≤ length out.old }
    ensures { Wrote at (behind numbers.now) out.old result out.new }
{
    let mut next = at;
    for number in numbers {
        next = put_spaced(out, next, *number);
    }
    out[next] = b'\n';
    next + 1
}

// How many digits a number has. What is left of it shrinks: for short numbers that is quicker than the logarithm.
fn decimal_length(value: u64) -> usize
    ensures { (result ≡ length (decimal value)) × (result ≤ 20) }
{
    let mut rest = value;
    let mut count = 1;
    while 10 <= rest {
        rest /= 10;
        count += 1;
    }
    count
}
