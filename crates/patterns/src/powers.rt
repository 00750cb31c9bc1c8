// Powers of two, which the exponent field of a pattern alone stands for, and numbers less such a power.
ghost use Rattle.std.specs.Prelude.{◌≡◌, ◌^◌, ◌≤◌, unsigned_abs};
ghost use Rattle.patterns.specs.Patterns.{field_power, less_power};

use crate::logs::{pattern_of, size_pattern, whole, whole_size};

// The sign and the exponent field.
pub(crate) const POWERS: u32 = 511 << 23;

// Half of the lowest exponent's place.
pub(crate) const HALF: u32 = 1 << 22;

// x less the power of two in the exponent field of its pattern, with its sign. What is added to the pattern before carries into the field.
pub(crate) fn less_power(x: i32, carry: u32) -> i32
    requires { (unsigned_abs x ≤ 2 ^ 15) × (carry ≤ 2 ^ 22) }
    ensures { result ≡ less_power carry x }
{
    x - whole((pattern_of(x) + carry) & POWERS)
}

// x less the power of two that design 2 takes for it.
pub(crate) fn offset(x: i16) -> i32
    ensures { result ≡ less_power (2 ^ 22) x }
{
    less_power(x as i32, HALF)
}

// The same in 16 bits.
pub fn offset_of(x: i16) -> i16
    ensures { result ≡ less_power (2 ^ 22) x }
{
    offset(x) as i16
}

// The leading power of a size; 0 for 0.
pub(crate) fn lead(n: u32) -> u32
    requires { n ≤ 2 ^ 15 }
    ensures { result ≡ field_power 0 n }
{
    whole_size(size_pattern(n) & POWERS)
}
