// The product by a design, for numbers that have been judged.
ghost use Rattle.std.specs.Prelude.{◌≡◌, ◌^◌, ◌<◌};
ghost use Rattle.designs.specs.Designs.{product};
ghost use Rattle.designs.specs.Signs.{signed_product, with_sign};
ghost use Rattle.kernels.specs.Steps.{served};
ghost use Rattle.refusals.specs.Methods.{meant};
ghost use Rattle.products.specs.Signable.{Signable};

use refusals::Method;

// The product of two magnitudes; designs 4 and 5 keep at most 31 bits.
pub(crate) fn product_of(method: Method, a: u32, b: u32) -> u64
    ensures { result ≡ product (served (meant method)) a b }
{
    match method {
        Method::Mitchell => kernels::mitchell(a, b),
        Method::Nearest => kernels::nearest(a, b),
        Method::Staged { stages } => kernels::staged(stages, a, b),
        Method::Truncated { kept_bits } => kernels::truncated(kept_bits, a, b),
        Method::TwiceTruncated { kept_bits } => kernels::twice_truncated(kept_bits, a, b),
    }
}

// The signed product of two numbers of at most 32 bits, where it fits.
pub(crate) fn signed_of(method: Method, a: i64, b: i64) -> i64
    requires { Signable (served (meant method)) a b }
    ensures { result ≡ signed_product (served (meant method)) a b }
{
    let size = product_of(
        method,
        signs::magnitude(a) as u32,
        signs::magnitude(b) as u32,
    );
    with_sign(signs::opposite(a, b), size)
}

// The number with a sign and a size.
fn with_sign(minus: bool, size: u64) -> i64
    requires { size < 2 ^ 63 }
    ensures { result ≡ with_sign minus size }
{
    let z = size as i64;
    if minus {
        return 0 - z;
    }
    z
}
