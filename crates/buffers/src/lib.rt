// What is read from a lent buffer and written to it: little-endian numbers in bytes, and a list of values.

#![tactic(auto)]

ghost use Rattle.std.specs.Prelude.{◌≡◌, ◌+◌, ◌≤◌, ◌<◌, ◌^◌, length};
ghost use Rattle.buffers.specs.Overwrite.{Wrote};
ghost use Rattle.buffers.specs.LittleEndian.{byte_at, number_at, bytes_of};

// The byte at a position.
pub fn byte_at(s: &[u8], at: usize) -> u32
    requires { at < length s.now }
    ensures { (result ≡ byte_at s.now at) × (result < 2 ^ 8) }
{
    s[at] as u32
}

// The number of 16 bits at a position.
pub fn u16_at(s: &[u8], at: usize) -> u32
    requires { at + 2 ≤ length s.now }
    ensures { (result ≡ number_at 2 s.now at) × (result < 2 ^ 16) }
{
    byte_at(s, at) + 256 * byte_at(s, at + 1)
}

// The number of 32 bits at a position.
pub fn u32_at(s: &[u8], at: usize) -> u32
    requires { at + 4 ≤ length s.now }
    ensures { (result ≡ number_at 4 s.now at) × (result < 2 ^ 32) }
{
    u16_at(s, at) + 65536 * u16_at(s, at + 2)
}

// Writes the lowest k bytes of a number from a position on. Returns the next position, as every writer does.
pub fn put_number(s: &mut [u8], at: usize, k: usize, number: u64) -> usize
    requires { at + k ≤ length s.old }
    ensures { Wrote at (bytes_of k number) s.old result s.new }
{
    let mut rest = number;
    for byte in &mut s[at..at + k] {
        *byte = (rest % 256) as u8;
        rest /= 256;
    }
    at + k
}

// Copies the values to the buffer's start.
pub fn put_all(out: &mut [u64], values: &[u64]) -> usize
    requires { length values.now ≤ length out.old }
    ensures { Wrote 0 values.now out.old result out.new }
{
    let count = values.len();
    out[..count].copy_from_slice(values);
    count
}
