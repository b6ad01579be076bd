// The sixteenth power of a number, exactly: in limbs, the lowest first.
ghost use Rattle.std.specs.Prelude.{◌*◌, ◌^◌, ◌≤◌};

const LIMB_BITS: u64 = 16;

// 2^32, the largest number that is raised, is 2^512 then.
const LIMBS: usize = 34;

// How many binary digits the sixteenth power has.
pub fn digits_of_power(number: u64) -> u64
    requires { number ≤ 2 ^ 32 }
{
    let mut power = [0u64; LIMBS];
    power[0] = 1;
    for _ in 0..16 {
        let next = times(power, number);
        power = next;
    }
    digits(power)
}

// The product with a number.
fn times(limbs: [u64; LIMBS], number: u64) -> [u64; LIMBS]
    requires { number ≤ 2 ^ 32 }
{
    let mut product = [0u64; LIMBS];
    let mut carry = 0;
    for (i, limb) in limbs.iter().enumerate() {
        let sum = limb_times(*limb, number) + carry;
        product[i] = sum % 65536;
        carry = sum / 65536;
    }
    product
}

// The product of a limb and a number.
fn limb_times(limb: u64, number: u64) -> u64
    requires { number ≤ 2 ^ 32 }
    ensures { result ≤ 65535 * 2 ^ 32 }
{
    (limb % 65536) * number
}

// How many binary digits a number has.
fn digits(limbs: [u64; LIMBS]) -> u64 {
    let mut count = 0;
    for (i, limb) in limbs.iter().enumerate() {
        count = digits_with(count, i as u64, *limb);
    }
    count
}

// How many it has with one limb more, if it has so many below it.
fn digits_with(below: u64, i: u64, limb: u64) -> u64
    requires { i ≤ 34 }
{
    if limb == 0 {
        return below;
    }
    LIMB_BITS * i + 64 - (u64::leading_zeros(limb) as u64)
}
