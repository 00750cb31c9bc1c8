// The product of two binary32 patterns by Mitchell's approximation (docs/SCOPE.md, "Single product"). It takes any patterns and gives
// the product or the first refusal that applies.
#![tactic(auto)]

ghost use Rattle.std.specs.Prelude.{◌≡◌, ◌-◌, ◌≤◌, ◌<◌};
ghost use Rattle.designs.specs.Outcomes.{accepted};
ghost use Rattle.formats.specs.Formats.{binary32, hidden, largest_exponent, pattern};
ghost use Rattle.refusals.specs.Refusals.{answer};
ghost use Rattle.singles.specs.Singles.{product_fields, result_outcome};
ghost use Rattle.singles.specs.Answers.{SingleProduct, as_single, bits_of};

use formats::Binary32;
use refusals::Refusal;

// The product of two patterns.
pub fn single_product(a: u32, b: u32) -> Result<f32, Refusal>
    ensures { SingleProduct a b result }
{
    let x = Binary32::from_bits(a);
    let y = Binary32::from_bits(b);
    let finite = x.is_finite() & y.is_finite();
    let subnormal = x.is_subnormal() | y.is_subnormal();
    let zero = x.is_zero() | y.is_zero();
    let minus = x.is_minus() != y.is_minus();
    if !finite {
        return Err(Refusal::NotFinite);
    }
    if subnormal {
        return Err(Refusal::Subnormal);
    }
    if zero {
        return Ok(value(Fields {
            minus,
            exponent: 0,
            fraction: 0,
        }));
    }
    normal_product(minus, x, y)
}

// The pattern of an answer's value, the sign of a zero included; a refusal is handed on, whatever it is told by. A product is never a NaN; for
// a caller's own NaN one pattern stands for all.
pub fn bits<E>(answer: Result<f32, E>) -> Result<u32, E>
    ensures { result ≡ bits_of answer }
{
    let x = answer?;
    if x.is_nan() {
        let nan = Binary32::nan();
        return Ok(nan.to_bits());
    }
    Ok(f32::to_bits(x))
}

// The logarithms are added: the fractions, with a carry to the exponents.
fn normal_product(minus: bool, x: Binary32, y: Binary32) -> Result<f32, Refusal>
    ensures { answer result ≡ as_single (result_outcome binary32 minus (product_fields binary32 x.bits y.bits)) }
{
    let exponents = x.exponent_field() + y.exponent_field();
    let fractions = x.fraction_field() + y.fraction_field();
    if fractions < Binary32::HIDDEN {
        return judged(Fields {
            minus,
            exponent: exponents,
            fraction: fractions,
        });
    }
    judged(Fields {
        minus,
        exponent: exponents + 1,
        fraction: fractions - Binary32::HIDDEN,
    })
}

// The fields of a number.
#[derive(Clone, Copy)]
struct Fields {
    minus: bool,
    exponent: u32,
    fraction: u32,
    ghost below_hidden: { fraction < hidden binary32 },
}

// The number with these fields, or its refusal. The exponent field is still one bias too large.
fn judged(fields: Fields) -> Result<f32, Refusal>
    ensures { answer result ≡ as_single (result_outcome binary32 fields.minus (record { exponent = fields.exponent - binary32.bias; fraction = fields.fraction })) }
{
    if fields.exponent > Binary32::BIAS + Binary32::LARGEST_EXPONENT {
        return Err(Refusal::ExponentTooLarge);
    }
    if fields.exponent < Binary32::BIAS + 1 {
        return Err(Refusal::ExponentTooSmall);
    }
    Ok(value(Fields {
        minus: fields.minus,
        exponent: fields.exponent - Binary32::BIAS,
        fraction: fields.fraction,
    }))
}

// The finite number with these fields.
fn value(fields: Fields) -> f32
    requires { fields.exponent ≤ largest_exponent binary32 }
    ensures { accepted result ≡ as_single (accepted (pattern binary32 fields.minus fields.exponent fields.fraction)) }
{
    f32::from_bits(pattern_of(fields))
}

// Its pattern.
fn pattern_of(fields: Fields) -> u32
    requires { fields.exponent ≤ largest_exponent binary32 }
    ensures { result ≡ pattern binary32 fields.minus fields.exponent fields.fraction }
{
    let size = (fields.exponent << Binary32::FRACTION_BITS) + fields.fraction;
    if fields.minus {
        return (1 << Binary32::SIGN_PLACE) + size;
    }
    size
}
