// The logarithm of a chain's number, in sixteenths.
ghost use Rattle.std.specs.Prelude.{◌≡◌, ◌<◌};
ghost use Rattle.differential.specs.Logarithm.{highest_one, next_four, logarithm as Logarithm·logarithm};

use differential::{Sixteenths, WholeBits};
use units::in_sixteenths;

// A = 16M + F: in sixteenths F adds itself.
pub(crate) fn logarithm(p: u32) -> Sixteenths
    requires { 0 < p }
    ensures { result.0 ≡ Logarithm·logarithm p }
{
    let m = highest_one(p);
    let whole = in_sixteenths(WholeBits(m));
    Sixteenths(whole.0 + next_four(p, m))
}

// M, the place of the highest one.
pub fn highest_one(p: u32) -> u32
    requires { 0 < p }
    ensures { (result ≡ highest_one p) × (result < 32) }
{
    31 - u32::leading_zeros(p)
}

// F, the four bits after the highest one, filled with zeros.
fn next_four(p: u32, m: u32) -> u32
    requires { (0 < p) × (m ≡ highest_one p) × (m < 32) }
    ensures { (result ≡ next_four p) × (result < 16) }
{
    if 4 <= m {
        (p >> (m - 4)) % 16
    } else {
        (p << (4 - m)) % 16
    }
}
