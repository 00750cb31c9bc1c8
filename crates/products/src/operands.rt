// Whether an operand is inside a width (docs/SCOPE.md, "Product, unsigned or signed"), for any width. Where a power has no place in 64
// bits, every operand is below it.
ghost use Rattle.std.specs.Prelude.{◌≡◌};
ghost use Rattle.designs.specs.Products.{inside_unsigned, inside_signed};

pub(crate) fn inside_unsigned(width: u32, a: u64) -> bool
    ensures { result ≡ inside_unsigned width a }
{
    match 1u64.checked_shl(width) {
        Some(power) => a < power,
        None => true,
    }
}

pub(crate) fn inside_signed(width: u32, a: i64) -> bool
    ensures { result ≡ inside_signed width a }
{
    let size = signs::magnitude(a);
    // one bit is the sign's
    match 1u64.checked_shl(width.saturating_sub(1)) {
        Some(half) if a < 0 => size <= half,
        Some(half) => size < half,
        None => true,
    }
}
