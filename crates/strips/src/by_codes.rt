// Designs that take a strip by codes of its numbers: the codes are made once, and then each row takes them.
ghost use Rattle.std.specs.Prelude.{◌≤◌, List, length, ℤ};
ghost use Rattle.std.proofs.Common.{rules};
ghost use Rattle.designs.specs.Designs.{Design};
ghost use Rattle.strips.specs.Strips.{Summed};

use crate::{InStrips, STRIP, rows};

// For this crate alone: what `code` and `sum` ask of a part and of its codes, `take` below meets.
pub trait ByCodes: Copy {
    type Codes: Default + Drop;

    ghost design: { Self → Design };

    // these are the codes of a part of a frame
    ghost coded: { Self → List ℤ → Self.Codes → Type 0 };

    fn code(self, part: &[i16], codes: &mut Self::Codes)
        requires { length part.now ≤ 64 }
        ensures { coded self part.now codes.new };

    // The sum of the products of a row and a part.
    fn sum(self, row: &[i16], part: &[i16], codes: &Self::Codes) -> i64
        requires { coded self part.now codes.now × (length part.now ≤ 64) }
        ensures { Summed (design self) row.now part.now result };
}

impl<D: ByCodes> InStrips for D {
    type Codes = D::Codes;

    const NUMBERS: usize = STRIP;

    ghost NUMBERS = { 64 };

    ghost design = { λ d. D.ByCodes.design d };

    ghost coded = { λ d part c. D.ByCodes.coded d part c };

    ghost some = { Prim.search rules };

    ghost few = { Prim.search rules };

    fn take(
        self,
        columns: usize,
        from: usize,
        weights: &[i16],
        part: &[i16],
        codes: &mut D::Codes,
        scores: &mut [i64],
    ) {
        let part = &part[..pairs::fewer(part.len(), STRIP)];
        self.code(part, codes);
        rows::take(self, columns, from, weights, part, codes, scores);
    }
}
