// Arithmetic of n-bit words, for every width n from 1 to 64.

#![tactic(auto)]

ghost use Rattle.std.specs.Prelude.{◌≡◌, ◌-◌, ◌^◌, ◌<◌, ◌≤◌};
ghost use Rattle.words.specs.Words.{bit as Words·bit, is_word, sum_modulo, minus_modulo, rotate_left, rotate_right, shift_left, shift_right};

// 2^n - 1: the largest word.
pub fn mask(n: u32) -> u64
    requires { (1 ≤ n) × (n ≤ 64) }
    ensures { result ≡ 2 ^ n - 1 }
{
    u64::MAX >> (64 - n)
}

// Whether x is a word of n bits.
pub fn is_word(n: u32, x: u64) -> bool
    requires { (1 ≤ n) × (n ≤ 64) }
    ensures { result ≡ is_word n x }
{
    x <= mask(n)
}

// Bit i, the lowest being bit 0.
pub fn bit(x: u64, i: u32) -> bool
    requires { i < 64 }
    ensures { result ≡ Words·bit x i }
{
    (x >> i) & 1 == 1
}

// The sum modulo 2^n.
pub fn add(n: u32, x: u64, y: u64) -> u64
    requires { (1 ≤ n) × (n ≤ 64) }
    ensures { result ≡ sum_modulo n x y }
{
    std::num::wrapping_add_u64(x, y) & mask(n)
}

// x minus y modulo 2^n.
pub fn subtract(n: u32, x: u64, y: u64) -> u64
    requires { (1 ≤ n) × (n ≤ 64) }
    ensures { result ≡ minus_modulo n x y }
{
    std::num::wrapping_sub_u64(x, y) & mask(n)
}

// A word of n bits rotated left by r places.
pub fn rotate_left(n: u32, r: u32, x: u64) -> u64
    requires { (n ≤ 64) × (1 ≤ r) × (r < n) × (x < 2 ^ n) }
    ensures { result ≡ rotate_left n r x }
{
    ((x << r) & mask(n)) | (x >> (n - r))
}

// A word of n bits rotated right by r places.
pub fn rotate_right(n: u32, r: u32, x: u64) -> u64
    requires { (n ≤ 64) × (1 ≤ r) × (r < n) × (x < 2 ^ n) }
    ensures { result ≡ rotate_right n r x }
{
    rotate_left(n, n - r, x)
}

// A word of n bits shifted left by r places.
pub fn shift_left(n: u32, r: u32, x: u64) -> u64
    requires { (n ≤ 64) × (r < n) }
    ensures { result ≡ shift_left n r x }
{
    (x << r) & mask(n)
}

// A word shifted right by r places.
pub fn shift_right(r: u32, x: u64) -> u64
    requires { r < 64 }
    ensures { result ≡ shift_right r x }
{
    x >> r
}
