// Designs that take the pairs of a row and a strip one by one: the codes that each makes of a number, and its product with a weight.
ghost use Rattle.std.specs.Prelude.{◌≡◌, ℕ, ◌<◌, ◌≤◌, List, length, ℤ};
ghost use Rattle.designs.specs.Codes.{kept_code};
ghost use Rattle.designs.specs.Designs.{Design, mitchell, nearest, truncated, twice_truncated};
ghost use Rattle.designs.specs.Signs.{signed_product};
ghost use Rattle.patterns.specs.Blocks.{place};
ghost use Rattle.patterns.specs.Patterns.{clamped};
ghost use Rattle.strips.specs.Codes.{code_by, code_of, Coded, FourCoded, offset_code, power_code};

use crate::by_codes::ByCodes;
use crate::{STRIP, UNSET, codes, products, sums};
use patterns::methods::{Mitchell, Nearest, Truncated, TwiceTruncated};

pub trait ByPairs: Copy {
    type Codes: Default + Drop;

    ghost design: { Self → Design };

    ghost coded: { Self → List ℤ → Self.Codes → Type 0 };

    fn code(self, part: &[i16], codes: &mut Self::Codes)
        requires { length part.now ≤ 64 }
        ensures { coded self part.now codes.new };

    // The product of a weight and number j of a part.
    fn product(self, w: i16, codes: &Self::Codes, j: usize) -> i32
        requires { (part : List ℤ) × coded self part codes.now × (j < length part) × (length part ≤ 64) }
        ensures { (part : List ℤ) → coded self part codes.now → j < length part → length part ≤ 64 → result ≡ signed_product (design self) w (place part j) };
}

impl<P: ByPairs> ByCodes for P {
    type Codes = P::Codes;

    ghost design = { λ d. P.ByPairs.design d };

    ghost coded = { λ d part c. P.ByPairs.coded d part c };

    fn code(self, part: &[i16], codes: &mut P::Codes) {
        ByPairs::code(self, part, codes);
    }

    fn sum(self, row: &[i16], part: &[i16], codes: &P::Codes) -> i64 {
        let n = pairs::fewer(row.len(), part.len());
        sums::sum(n, |j| self.product(row[j], codes, j))
    }
}

// A code of each number.
#[derive(Clone, Copy)]
pub struct Codes {
    pub places: [u32; STRIP],
}

impl Default for Codes {
    fn default() -> Codes {
        Codes {
            places: [UNSET; STRIP],
        }
    }
}

impl ByPairs for Mitchell {
    type Codes = Codes;

    ghost design = { λ d. mitchell };

    ghost coded = { λ d part c. Coded code_of part c.places };

    fn code(self, part: &[i16], codes: &mut Codes) {
        codes::fill(part, &mut codes.places[..], codes::own_code);
    }

    fn product(self, w: i16, codes: &Codes, j: usize) -> i32 {
        products::mitchell(patterns::raised(w), codes.places[j])
    }
}

impl ByPairs for Truncated {
    type Codes = Codes;

    ghost design = { λ d. truncated (clamped d.kept_bits) };

    ghost coded = { λ d part c. Coded (code_by (kept_code 23 (clamped d.kept_bits))) part c.places };

    fn code(self, part: &[i16], codes: &mut Codes) {
        let t = self.kept_bits;
        codes::fill(part, &mut codes.places[..], |x| codes::kept_code(t, x));
    }

    fn product(self, w: i16, codes: &Codes, j: usize) -> i32 {
        let p = patterns::kept(self.kept_bits, patterns::raised(w));
        products::truncated(self.kept_bits, p, codes.places[j])
    }
}

// The codes of the power next to each number, and of what it leaves.
#[derive(Clone, Copy)]
pub struct NearCodes {
    pub powers: [u32; STRIP],
    pub offsets: [u32; STRIP],
}

impl Default for NearCodes {
    fn default() -> NearCodes {
        NearCodes {
            powers: [UNSET; STRIP],
            offsets: [UNSET; STRIP],
        }
    }
}

impl ByPairs for Nearest {
    type Codes = NearCodes;

    ghost design = { λ d. nearest };

    ghost coded = { λ d part c. Coded power_code part c.powers × Coded offset_code part c.offsets };

    fn code(self, part: &[i16], codes: &mut NearCodes) {
        codes::fill(part, &mut codes.powers[..], codes::power_code);
        codes::fill(part, &mut codes.offsets[..], codes::offset_code);
    }

    fn product(self, w: i16, codes: &NearCodes, j: usize) -> i32 {
        products::nearest(patterns::raised(w), codes.powers[j], codes.offsets[j])
    }
}

// The code of each number for the first stage, what the weights' fractions have to stay below for it to be low, and the codes of what it then
// leaves, and of what it else leaves.
#[derive(Clone, Copy)]
pub struct TwiceCodes {
    pub firsts: [u32; STRIP],
    pub rooms: [u32; STRIP],
    pub lows: [u32; STRIP],
    pub highs: [u32; STRIP],
}

impl Default for TwiceCodes {
    fn default() -> TwiceCodes {
        TwiceCodes {
            firsts: [UNSET; STRIP],
            rooms: [UNSET; STRIP],
            lows: [UNSET; STRIP],
            highs: [UNSET; STRIP],
        }
    }
}

impl ByPairs for TwiceTruncated {
    type Codes = TwiceCodes;

    ghost design = { λ d. twice_truncated (clamped d.kept_bits) };

    ghost coded = { λ d part c. FourCoded (clamped d.kept_bits) part c.firsts c.rooms c.lows c.highs };

    fn code(self, part: &[i16], codes: &mut TwiceCodes) {
        let t = self.kept_bits;
        codes::fill(part, &mut codes.firsts[..], |x| codes::kept_code(t, x));
        codes::fill(part, &mut codes.rooms[..], |x| patterns::room_of(t, x));
        codes::fill(part, &mut codes.lows[..], |x| codes::left_code(true, x));
        codes::fill(part, &mut codes.highs[..], |x| codes::left_code(false, x));
    }

    // All four codes are read before one of the last two is chosen, so that the compiler makes no branch of it.
    fn product(self, w: i16, codes: &TwiceCodes, j: usize) -> i32 {
        let first = codes.firsts[j];
        let room = codes.rooms[j];
        let low = codes.lows[j];
        let high = codes.highs[j];
        products::twice_truncated(self.kept_bits, w, first, room, low, high)
    }
}
