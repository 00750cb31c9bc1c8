// Binary formats: each is a type with the constants that name its fields, and the functions that read them off a pattern.
#![tactic(auto)]

ghost use Rattle.std.specs.Prelude.{◌≡◌};
ghost use Rattle.formats.specs.Formats.{binary32, exponent_field, fraction_field, is_finite, is_minus, is_subnormal, is_zero, one, quiet_nan};

// IEEE 754 binary32, by its pattern.
#[derive(Clone, Copy)]
pub struct Binary32 {
    pub bits: u32,
}

impl Binary32 {
    pub const BIAS: u32 = 127;

    pub const FRACTION_BITS: u32 = 23;

    pub const EXPONENT_BITS: u32 = 8;

    // The largest finite exponent field.
    pub const LARGEST_EXPONENT: u32 = 254;

    // The exponent field of the infinities and the NaNs.
    pub const NAN_EXPONENT: u32 = Self::LARGEST_EXPONENT + 1;

    pub const SIGN_PLACE: u32 = Self::EXPONENT_BITS + Self::FRACTION_BITS;

    // The weight of the hidden one, above every fraction field.
    pub const HIDDEN: u32 = 1 << Self::FRACTION_BITS;

    // The pattern that stands for every NaN, with only the highest bit of its fraction field set.
    pub const NAN: u32 = (Self::NAN_EXPONENT << Self::FRACTION_BITS) + Self::HIDDEN / 2;

    // As the library names it of its own floats, and `to_bits` too.
    pub fn from_bits(bits: u32) -> Self
        ensures { result.bits ≡ bits }
    {
        Self { bits }
    }

    // 1, whose exponent field is the bias.
    pub fn one() -> Self
        ensures { result.bits ≡ one binary32 }
    {
        Self {
            bits: Self::BIAS << Self::FRACTION_BITS,
        }
    }

    // The NaN that stands for every other.
    pub fn nan() -> Self
        ensures { result.bits ≡ quiet_nan binary32 }
    {
        Self { bits: Self::NAN }
    }

    pub fn to_bits(self) -> u32
        ensures { result ≡ self.bits }
    {
        self.bits
    }

    // Whether the sign is minus.
    pub fn is_minus(self) -> bool
        ensures { result ≡ is_minus binary32 self.bits }
    {
        self.bits >> Self::SIGN_PLACE == 1
    }

    pub fn exponent_field(self) -> u32
        ensures { result ≡ exponent_field binary32 self.bits }
    {
        (self.bits >> Self::FRACTION_BITS) % (1 << Self::EXPONENT_BITS)
    }

    pub fn fraction_field(self) -> u32
        ensures { result ≡ fraction_field binary32 self.bits }
    {
        self.bits % Self::HIDDEN
    }

    // Neither infinite nor NaN.
    pub fn is_finite(self) -> bool
        ensures { result ≡ is_finite binary32 self.bits }
    {
        self.exponent_field() <= Self::LARGEST_EXPONENT
    }

    // Not zero, and below every number with the hidden one.
    pub fn is_subnormal(self) -> bool
        ensures { result ≡ is_subnormal binary32 self.bits }
    {
        (self.exponent_field() == 0) & (self.fraction_field() != 0)
    }

    // Zero, with either sign.
    pub fn is_zero(self) -> bool
        ensures { result ≡ is_zero binary32 self.bits }
    {
        (self.exponent_field() == 0) & (self.fraction_field() == 0)
    }
}
