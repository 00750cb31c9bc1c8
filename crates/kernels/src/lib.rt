// The designs as total functions on magnitudes of up to 32 bits, whatever the width of the operands they come from. They are no
// operations of docs/SCOPE.md: they judge nothing and refuse nothing. They shift and add; none multiplies.
#![tactic(auto)]

ghost use Rattle.std.specs.Prelude.{◌≡◌};
ghost use Rattle.designs.specs.Designs.{product, mitchell, nearest, staged};
ghost use Rattle.kernels.specs.Steps.{NearPower};

mod bits;
mod operand;
mod truncation;

use crate::bits::{power, shifted};
use crate::operand::{Operand, both};
pub use truncation::{truncated, twice_truncated};

// Design 1, Mitchell.
pub fn mitchell(a: u32, b: u32) -> u64
    ensures { result ≡ product mitchell a b }
{
    let Some((a, b)) = both(a, b) else {
        return 0;
    };
    let y = shifted(b.rest, a.log);
    let s = shifted(a.rest, b.log) + y;
    // a × 2^m + y is 2^(k+m) + s, the greater of the two where s does not carry
    (shifted(a.value, b.log) + y).max(s + s)
}

// Design 2, nearest power.
pub fn nearest(a: u32, b: u32) -> u64
    ensures { result ≡ product nearest a b }
{
    let Some((a, b)) = both(a, b) else {
        return 0;
    };
    let k = near_power(a);
    let m = near_power(b);
    // b − 2^m may be negative and the product's parts may pass 2^64, so both sums are taken modulo 2^64; the product fits
    let r = std::num::wrapping_sub_u64(b.value as u64, power(m));
    std::num::wrapping_add_u64(shifted(a.value, m), r << k)
}

// The exponent of the power of two nearest to x, the higher one of two that are equally near.
fn near_power(x: Operand) -> u32
    ensures { NearPower x.value result }
{
    // the bit of 2 × x below its leading one, at 2^log, says whether x is at least halfway to the next power; no bit above it is wanted
    let twice = std::num::wrapping_add_u32(x.value, x.value);
    x.log + ((twice >> x.log) & 1)
}

// Design 3, staged: one stage, and what is left of both goes to the next.
pub fn staged(stages: u32, a: u32, b: u32) -> u64
    ensures { result ≡ product (staged stages) a b }
{
    // tested in this order and not by `both`, by which a row of sixteen stages takes 1.05 times as long
    if a == 0 || b == 0 || stages == 0 {
        return 0;
    }
    let a = Operand::of(a);
    let b = Operand::of(b);
    // 2^(k+m) + x × 2^m is a × 2^m
    let output = shifted(a.value, b.log) + shifted(b.rest, a.log);
    output + staged(stages - 1, a.rest, b.rest)
}
