// Tests that the questions of several stages share.
ghost use Rattle.std.specs.Prelude.{◌≡◌, ◌+◌, ◌≤◌, length, fold, bit_or};
ghost use Rattle.sheet.specs.Questions.{within as Questions·within, zero_bytes};

// Whether x is from a to b.
pub fn within(a: usize, b: usize, x: usize) -> bool
    ensures { result ≡ Questions·within a b x }
{
    a <= x && x <= b
}

// Whether the k bytes at a position are zero.
pub fn zero_bytes(k: usize, s: &[u8], at: usize) -> bool
    requires { at + k ≤ length s.now }
    ensures { result ≡ zero_bytes k s.now at }
{
    joined(&s[at..at + k]) == 0
}

// The bytes joined: all of them, with no stop at the first that is not zero, as nearly always all are zero, and the fold goes many
// bytes at a time.
fn joined(bytes: &[u8]) -> u8
    ensures { result ≡ fold bit_or 0 bytes.now }
{
    bytes.iter().fold(0, |joined, byte| joined | *byte)
}
