// Rows that are scored together against one frame by design 3, with four stages or more. What s stages leave of a product is the product of what
// they leave of both numbers, so a design's product is the true one less that; and each of the two is a sum of products with signed powers of
// two, which are additions to exponents. So the time hardly depends on s, and nothing is multiplied. The frame goes in strips of 128 numbers, which
// `strips::score` hands over. Any slices are taken.
#![tactic(auto)]

ghost use Rattle.std.specs.Prelude.{◌≡◌, length};
ghost use Rattle.std.proofs.Common.{rules};
ghost use Rattle.designs.specs.Designs.{staged};
ghost use Rattle.patterns.specs.Blocks.{place};
ghost use Rattle.many_stages.specs.Strips.{Coded, excess_of, many_of};

mod count;
mod frame;
mod left;
mod powers;
mod rows;
mod sums;
#[cfg(test)]
mod tests;

use strips::InStrips;

// The most numbers of a strip.
pub const STRIP: usize = 128;

// The places for the codes of a strip: of four powers for the high byte of each number and four for the low one, and of six for what the stages
// leave of it.
pub(crate) const CODES: usize = 1792;

// Design 3; fewer stages than 4 act as 4, and more than 16 as 16.
#[derive(Clone, Copy)]
pub struct ManyStages {
    pub stages: u32,
}

// The codes of a strip, what the offsets add to the sums of rows with all of it, and places to work in.
#[derive(Clone, Copy)]
pub struct Codes {
    pub held: [u32; CODES],
    pub excess: i64,
    pub left: [u32; STRIP],
}

impl Default for Codes {
    // All bytes are 0, so that the compiler sets them in place: it would copy an array of so many other numbers.
    fn default() -> Codes {
        Codes {
            held: [0; CODES],
            excess: 0,
            left: [0; STRIP],
        }
    }
}

impl InStrips for ManyStages {
    type Codes = Codes;

    const NUMBERS: usize = STRIP;

    ghost NUMBERS = { 128 };

    ghost design = { λ d. staged (many_of d.stages) };

    ghost coded = { λ d part c. Coded (many_of d.stages) part c.held × (c.excess ≡ excess_of (many_of d.stages) (place part) (length part)) };

    ghost some = { Prim.search rules };

    ghost few = { Prim.search rules };

    fn take(
        self,
        columns: usize,
        from: usize,
        weights: &[i16],
        part: &[i16],
        codes: &mut Codes,
        scores: &mut [i64],
    ) {
        let stages = count::taken(self.stages);
        let part = &part[..pairs::fewer(part.len(), STRIP)];
        let left = &mut codes.left[..];
        codes.excess = frame::coded(stages, part, &mut codes.held[..], &mut left[..part.len()]);
        rows::staged(
            stages,
            columns,
            from,
            weights,
            part,
            &codes.held,
            codes.excess,
            &mut codes.left,
            scores,
        );
    }
}
