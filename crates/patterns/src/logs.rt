// Numbers to patterns and back.
ghost use Rattle.std.specs.Prelude.{◌≡◌, ℕ, ◌+◌, ◌*◌, ◌%◌, ◌^◌, ◌<◌, ◌≤◌, ℤ, pos, ◌-ℤ◌, unsigned_abs};
ghost use Rattle.patterns.specs.Patterns.{Less, masked_by, pattern_of, Stands};

use crate::raising::raised;

// The pattern of 1, whose logarithm is 0.
pub(crate) const ONE: u32 = 127 << 23;

// The pattern of x: its sign, and above 127 × 2^23 its logarithm code; 0 for 0.
pub(crate) fn pattern_of(x: i32) -> u32
    requires { unsigned_abs x ≤ 2 ^ 15 }
    ensures { result ≡ pattern_of x }
{
    f32::to_bits(x as f32)
}

// 16 in the exponent field.
const HIGHER: u32 = 16 << 23;

// The pattern of a number that is not 0; of 0, any.
pub(crate) fn pattern(x: i16) -> u32
    ensures { 0 < unsigned_abs x → result ≡ pattern_of x }
{
    std::num::wrapping_sub_u32(raised(x), HIGHER)
}

// The same of a size.
pub(crate) fn size_pattern(n: u32) -> u32
    requires { n ≤ 2 ^ 15 }
    ensures { result ≡ pattern_of (pos n) }
{
    pattern_of(n as i32)
}

// The whole number that a pattern stands for. The way over a binary64 says that nothing is lost; it compiles to one conversion.
pub(crate) fn whole(p: u32) -> i32
    requires { (z : ℤ) × Stands p z }
    ensures { (z : ℤ) → Stands p z → result ≡ z }
{
    f32::from_bits(p) as f64 as i32
}

// The same of a pattern without a sign, which stands for a size.
pub(crate) fn whole_size(p: u32) -> u32
    requires { (n : ℕ) × Stands p (pos n) }
    ensures { (n : ℕ) → Stands p (pos n) → result ≡ n }
{
    whole(p) as u32
}

// The sum of two patterns less that of 1, modulo 2^32: the logarithms add, and the sign bits add to the product's.
pub(crate) fn log_sum(p: u32, q: u32) -> u32
    ensures { (result + 127 * 2 ^ 23) % 2 ^ 32 ≡ (p + q) % 2 ^ 32 }
{
    std::num::wrapping_sub_u32(std::num::wrapping_add_u32(p, q), ONE)
}

// p, or 0 where z is 0.
pub(crate) fn unless_zero(z: i32, p: u32) -> u32
    ensures { result ≡ masked_by z p }
{
    if z == 0 {
        return 0;
    }
    p
}

// A true product less the number that p stands for; 0 where it is 0.
pub(crate) fn residue_by(z: i32, p: u32) -> i32
    requires { (y : ℤ) × Less z p y }
    ensures { (y : ℤ) → Less z p y → result ≡ z -ℤ y }
{
    z - whole(unless_zero(z, p))
}
