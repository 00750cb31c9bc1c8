// Raised patterns, with 16 more in the exponent field than those of the numbers: what a layer adds the codes of its frame to.
ghost use Rattle.std.specs.Prelude.{◌≡◌, ◌^◌, ◌≤◌, ℤ, unsigned_abs};
ghost use Rattle.designs.specs.Codes.{kept_code};
ghost use Rattle.patterns.specs.Patterns.{carried_of, clamped, less_power, power_of, raised_by, raised_of};

use crate::powers::{HALF, POWERS};
use crate::truncation::KeptBits;

// The pattern of x × 2^16; 0 for 0. Of four x at a time the compiler makes these products by a move to the upper halves of empty registers,
// where widening each x would begin with a register that still holds something, and so wait for the pairs before.
pub fn raised(x: i16) -> u32
    ensures { result ≡ raised_of x }
{
    f32::to_bits((x as i32 * 65536) as f64 as f32)
}

// The raised pattern of the power of two that design 2 takes for a number, from that of the number.
pub fn near(p: u32) -> u32
    ensures { (z : ℤ) → unsigned_abs z ≤ 2 ^ 15 → p ≡ raised_of z → result ≡ raised_of (power_of (2 ^ 22) z) }
{
    std::num::wrapping_add_u32(p, HALF) & POWERS
}

// That of a number less the power of two that design 2 takes for it. The difference has no more digits than the number, so that it is exact.
pub fn raised_offset(x: i16) -> u32
    ensures { result ≡ raised_of (less_power (2 ^ 22) x) }
{
    let p = raised(x);
    f32::to_bits(f32::from_bits(p) - f32::from_bits(near(p)))
}

// That of the leading power of a number.
pub fn lead(p: u32) -> u32
    ensures { (z : ℤ) → unsigned_abs z ≤ 2 ^ 15 → p ≡ raised_of z → result ≡ raised_of (power_of 0 z) }
{
    p & POWERS
}

// A raised pattern with the bits of the fraction that designs 4 and 5 keep.
pub fn kept(kept_bits: u32, p: u32) -> u32
    ensures { (z : ℤ) → unsigned_abs z ≤ 2 ^ 15 → p ≡ raised_of z → result ≡ raised_by (kept_code 23 (clamped kept_bits)) z }
{
    KeptBits::of(kept_bits).cut(p)
}

// The sum of a raised pattern and a code, both with the kept bits, with its carry.
pub fn carried(kept_bits: u32, sum: u32) -> u32
    ensures { result ≡ carried_of (clamped kept_bits) sum }
{
    KeptBits::of(kept_bits).with_carry(sum)
}
