// Designs 4 and 5, which keep some bits of each fraction: at most 31, all that a width of 32 takes.
ghost use Rattle.std.specs.Prelude.{◌≡◌, ℕ, min};
ghost use Rattle.designs.specs.Designs.{left_over, product, truncated, twice_truncated};
ghost use Rattle.kernels.specs.Steps.{served, Summed};

use crate::bits::{power, shifted};
use crate::operand::{Operand, both};

// Where the leading bit of an operand is moved to, which is as many places as there are bits to keep.
const TOP_PLACE: u32 = 31;

const TOP: u64 = 1 << TOP_PLACE;

// Design 4, truncated.
pub fn truncated(kept_bits: u32, a: u32, b: u32) -> u64
    ensures { result ≡ product (served (truncated kept_bits)) a b }
{
    let Some((a, b)) = both(a, b) else {
        return 0;
    };
    moved_down(kept_sum(kept_bits, a, b), a, b)
}

// Design 5, twice truncated: design 4, and design 4 with two kept bits on what it leaves.
pub fn twice_truncated(kept_bits: u32, a: u32, b: u32) -> u64
    ensures { result ≡ product (served (twice_truncated kept_bits)) a b }
{
    let Some((a, b)) = both(a, b) else {
        return 0;
    };
    let s = kept_sum(kept_bits, a, b);
    let low = s < TOP;
    moved_down(s, a, b) + truncated(2, left_over(low, a), left_over(low, b))
}

// The sum of both kept fractions, below the leading bits at 2^31, with the carry of 1 at the last kept bit.
fn kept_sum(kept_bits: u32, a: Operand, b: Operand) -> u64
    ensures { Summed (min kept_bits 31) a.value b.value result }
{
    let last = power(TOP_PLACE - kept_bits.min(TOP_PLACE));
    let mask = TOP - last;
    (shifted(a.value, a.headroom()) & mask) + (shifted(b.value, b.headroom()) & mask) + last
}

// The product by design 4 from that sum; its power is 2^31 × 2^31 over 2 to both headrooms.
fn moved_down(s: u64, a: Operand, b: Operand) -> u64
    requires { (t : ℕ) × Summed t a.value b.value s }
    ensures { (t : ℕ) → Summed t a.value b.value s → result ≡ product (truncated t) a.value b.value }
{
    ((s + TOP.max(s)) << TOP_PLACE) >> (a.headroom() + b.headroom())
}

// What the first stage of design 5 leaves of x, where its sum is below 1 or not.
fn left_over(low: bool, x: Operand) -> u32
    ensures { result ≡ left_over low x.value }
{
    if low {
        return x.rest;
    }
    (1u32 << x.log) - 1 - x.rest
}
