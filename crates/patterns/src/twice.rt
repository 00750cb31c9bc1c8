// Design 5 on the sizes of a pair's numbers, whose true product is z: the first stage, what it leaves of each, and the second stage.
ghost use Rattle.std.specs.Prelude.{◌≡◌, ◌+◌, ◌-◌, ◌*◌, ◌^◌, ◌<◌, ◌≤◌, false, pos, unsigned_abs};
ghost use Rattle.designs.specs.Designs.{kept, left_over, log2, product, truncated};
ghost use Rattle.patterns.specs.Patterns.{clamped, is_low, Sizes};

use crate::logs::{log_sum, size_pattern, unless_zero, whole_size};
use crate::powers::{POWERS, lead};
use crate::truncation::{HIDDEN, KeptBits};

// The second stage keeps two bits. Its carry stands at the last of them, and its sum is read two places higher, so that it is whole.
const TWO: KeptBits = KeptBits { count: 2 };

const TWO_HIGHER: u32 = (TWO.count << 23) + (HIDDEN >> TWO.count);

// The first stage, design 4.
pub(crate) fn first_stage(t: KeptBits, z: i32, a: u32, b: u32) -> u32
    requires { Sizes z a b }
    ensures { result ≡ product (truncated t.count) a b }
{
    let sum = log_sum(t.cut(size_pattern(a)), t.cut(size_pattern(b)));
    whole_size(unless_zero(z, t.with_carry(sum)))
}

// Whether the kept fractions and the carry stay below 1. Where a number is 0 it is taken to be so, and nothing is left of that number. The
// sum stands before the test, so that the compiler makes no branch of it.
pub(crate) fn is_low(t: KeptBits, z: i32, a: u32, b: u32) -> bool
    requires { Sizes z a b }
    ensures { result ≡ is_low t.count a b }
{
    let sum = fraction(t, a) + fraction(t, b) + t.last_place();
    if z == 0 {
        return true;
    }
    sum < HIDDEN
}

// The kept bits of a fraction, at their place; of 0, none.
fn fraction(t: KeptBits, x: u32) -> u32
    requires { x ≤ 2 ^ 15 }
    ensures { result ≡ kept t.count x * 2 ^ (23 - t.count) }
{
    let p = size_pattern(x);
    t.cut(p) - (p & POWERS)
}

// The same of a signed number.
pub fn fraction_of(kept_bits: u32, x: i16) -> u32
    ensures { result ≡ kept (clamped kept_bits) (unsigned_abs x) * 2 ^ (23 - clamped kept_bits) }
{
    fraction(KeptBits::of(kept_bits), pairs::size(x))
}

// What the kept bits of another fraction have to stay below for the first stage to be low: 1 less those of x and the carry.
pub fn room_of(kept_bits: u32, x: i16) -> u32
    ensures { result ≡ 2 ^ 23 - (kept (clamped kept_bits) (unsigned_abs x) + 1) * 2 ^ (23 - clamped kept_bits) }
{
    HIDDEN - (fraction_of(kept_bits, x) + KeptBits::of(kept_bits).last_place())
}

// What the first stage leaves of x: the bits below its leading one, or what these bits lack of all ones.
pub(crate) fn left_over(low: bool, x: u32) -> u32
    requires { (x ≤ 2 ^ 15) × (low ≡ false → 0 < x) }
    ensures { result ≡ left_over low x }
{
    let below = std::num::wrapping_sub_u32(lead(x), 1);
    if low {
        return x & below;
    }
    !x & below
}

// The same of a signed number; of 0, nothing.
pub fn left_of(low: bool, x: i16) -> i16
    ensures { result ≡ pos (left_over low (unsigned_abs x)) }
{
    let n = pairs::size(x);
    if n == 0 {
        return 0;
    }
    left_over(low, n) as i16
}

// The second stage, design 4 with two kept bits.
pub(crate) fn second_stage(x: u32, y: u32) -> u32
    requires { (x < 2 ^ 15) × (y < 2 ^ 15) × (log2 x + log2 y ≤ 27) }
    ensures { result ≡ product (truncated 2) x y }
{
    let sum = log_sum(TWO.cut(size_pattern(x)), TWO.cut(size_pattern(y)));
    let higher = std::num::wrapping_add_u32(sum, TWO_HIGHER);
    whole_size(unless_zero(x as i32, unless_zero(y as i32, higher))) >> TWO.count
}
