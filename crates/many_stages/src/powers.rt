// One number at a time, by its raised pattern: the signed powers of two that it is the sum of, and sums and differences of two.
ghost use Rattle.std.specs.Prelude.{◌≡◌, ◌-◌, ◌^◌, ◌<◌, ◌≤◌, ℤ, ◌+ℤ◌, ◌-ℤ◌, if◌then◌else◌, bit_and, nat_eq, unsigned_abs};
ghost use Rattle.std.specs.Int.Signed.{mag};
ghost use Rattle.designs.specs.Signs.{left_ℤ, rest_ℤ};
ghost use Rattle.patterns.specs.Patterns.{raised_of};
ghost use Rattle.strips.specs.Codes.{code_of};
ghost use Rattle.many_stages.specs.Powers.{high_byte, low_byte, next_power};
ghost use Rattle.many_stages.specs.Strips.{Raised};

// The sign and the exponent field, and the fraction field.
const POWERS: u32 = 511 << 23;

const FRACTION: u32 = (1 << 23) - 1;

// Half of the lowest exponent's place.
const HALF: u32 = 1 << 22;

// The raised pattern of 1: 127 for the pattern of 1, and 16.
const ONE: u32 = 143 << 23;

// 159 in the exponent field: what the raised pattern of a power has more than its code.
const RAISED_TWICE: u32 = 159 << 23;

// Half of that place once more for a power of two, whose fraction is 0.
fn more_of_power(p: u32) -> u32
    ensures { result ≡ (if nat_eq (bit_and p (2 ^ 23 - 1)) 0 then 2 ^ 22 else 0) }
{
    if p & FRACTION == 0 {
        return HALF;
    }
    0
}

// The power that is taken off a number that is not 0: twice a power of two, and else the nearest one.
pub(crate) fn beyond(p: u32) -> u32
    ensures { (z : ℤ) → 0 < unsigned_abs z → unsigned_abs z ≤ 2 ^ 12 → p ≡ raised_of z → result ≡ raised_of (next_power z) }
{
    let half = std::num::wrapping_add_u32(p, HALF);
    std::num::wrapping_add_u32(half, more_of_power(p)) & POWERS
}

// The same of any number: 1 of 0.
pub(crate) fn first_power(p: u32) -> u32
    ensures { (z : ℤ) → unsigned_abs z ≤ 2 ^ 12 → p ≡ raised_of z → result ≡ raised_of (next_power z) }
{
    let power = beyond(p);
    if p == 0 {
        return ONE;
    }
    power
}

// The code that goes with the raised pattern of a number that is not 0.
pub(crate) fn code(p: u32) -> u32
    ensures { (z : ℤ) → 0 < unsigned_abs z → p ≡ raised_of z → result ≡ code_of z }
{
    std::num::wrapping_sub_u32(p, RAISED_TWICE)
}

// The raised pattern of the difference of two numbers, which is exact.
pub(crate) fn less(p: u32, q: u32) -> u32
    requires { (y : ℤ) × (z : ℤ) × Raised y p × Raised z q }
    ensures { (y z : ℤ) → Raised y p → Raised z q → result ≡ raised_of (y -ℤ z) }
{
    f32::to_bits(f32::from_bits(p) - f32::from_bits(q))
}

// That of their sum.
pub(crate) fn plus(p: u32, q: u32) -> u32
    requires { (y : ℤ) × (z : ℤ) × Raised y p × Raised z q }
    ensures { (y z : ℤ) → Raised y p → Raised z q → result ≡ raised_of (y +ℤ z) }
{
    f32::to_bits(f32::from_bits(p) + f32::from_bits(q))
}

// What one stage of design 3 leaves of a number, and what four leave. That p is the pattern of z is no fact of p alone, and so of no type.
pub(crate) fn rest(p: u32) -> u32
    requires { (z : ℤ) × (unsigned_abs z ≤ 2 ^ 15) × (p ≡ raised_of z) }
    ensures { (z : ℤ) → unsigned_abs z ≤ 2 ^ 15 → p ≡ raised_of z → result ≡ raised_of (rest_ℤ z) }
{
    less(p, patterns::lead(p))
}

pub(crate) fn rest_of_four(p: u32) -> u32
    requires { (z : ℤ) × (unsigned_abs z ≤ 2 ^ 15) × (p ≡ raised_of z) }
    ensures { (z : ℤ) → unsigned_abs z ≤ 2 ^ 15 → p ≡ raised_of z → result ≡ raised_of (left_ℤ 4 z) }
{
    rest(rest(rest(rest(p))))
}

// The number of a raised pattern.
pub(crate) fn number(p: u32) -> i32
    requires { (z : ℤ) × (mag z < 2 ^ 15) × (p ≡ raised_of z) }
    ensures { (z : ℤ) → mag z < 2 ^ 15 → p ≡ raised_of z → result ≡ z }
{
    (f32::from_bits(p) as f64 as i32) >> 16
}

// A number as 256 times its high byte, and its low one, both from −128 to 128.
pub(crate) fn high_byte(x: i16) -> i16
    ensures { result ≡ high_byte x }
{
    ((x as i32 + 128) >> 8) as i16
}

pub(crate) fn low_byte(x: i16) -> i16
    ensures { result ≡ low_byte x }
{
    (x as i32 - high_byte(x) as i32 * 256) as i16
}
