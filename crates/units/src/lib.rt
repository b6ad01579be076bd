// Whole bits and sixteenths of a bit: one becomes the other here and nowhere else.

#![tactic(auto)]

ghost use Rattle.std.specs.Prelude.{◌≡◌, ◌*◌, ◌<◌, ◌^◌};
ghost use Rattle.differential.specs.Unit.{unit};

use differential::{Sixteenths, WholeBits};

// Whole bits in sixteenths: the one function that multiplies by 16.
pub fn in_sixteenths(bits: WholeBits) -> Sixteenths
    requires { bits.0 < 2 ^ 16 }
    ensures { result.0 ≡ unit * bits.0 }
{
    Sixteenths(16 * bits.0)
}
