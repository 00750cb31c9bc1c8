// The designs as types, each with its setting, so that what is done with pairs by any design is written once.
ghost use Rattle.std.specs.Prelude.{◌≡◌};
ghost use Rattle.std.proofs.Common.{rules};
ghost use Rattle.designs.specs.Designs.{Design, KeepsBit, mitchell, nearest, staged, truncated, twice_truncated};
ghost use Rattle.designs.specs.Signs.{residue};
ghost use Rattle.patterns.specs.Patterns.{clamped};

use crate::logs::{log_sum, pattern, residue_by};
use crate::powers::offset;
use crate::sizes::less_size;
use crate::truncation::KeptBits;
use crate::twice::{first_stage, is_low, left_over, second_stage};

// A design with its setting, and what it leaves of a pair. No product of any of them is larger than what a row has room for, since each
// keeps a bit at least.
pub trait Multiplier: Copy {
    ghost design: { Self → Design };

    fn residue(self, w: i16, x: i16) -> i32
        ensures { result ≡ residue (design self) w x };

    ghost keeps: { (d : Self) → KeepsBit (design d) };
}

// Design 1, Mitchell's.
#[derive(Clone, Copy)]
pub struct Mitchell;

impl Multiplier for Mitchell {
    ghost design = { λ d. mitchell };

    ghost keeps = { λ d. tt };

    fn residue(self, w: i16, x: i16) -> i32 {
        residue_by(pairs::true_product(w, x), log_sum(pattern(w), pattern(x)))
    }
}

// Design 2, the nearest power: what the nearest powers of two leave of both numbers, multiplied.
#[derive(Clone, Copy)]
pub struct Nearest;

impl Multiplier for Nearest {
    ghost design = { λ d. nearest };

    ghost keeps = { λ d. tt };

    fn residue(self, w: i16, x: i16) -> i32 {
        offset(w) * offset(x)
    }
}

// Design 3, by the kernel, which stops where nothing is left. It has branches, and serves where pairs are so few that a stage over a block
// takes longer.
#[derive(Clone, Copy)]
pub struct Staged {
    pub stages: u32,
}

impl Multiplier for Staged {
    ghost design = { λ d. staged d.stages };

    ghost keeps = { λ d. tt };

    fn residue(self, w: i16, x: i16) -> i32 {
        less_size(
            pairs::true_product(w, x),
            kernels::staged(self.stages, pairs::size(w), pairs::size(x)) as u32,
        )
    }
}

// Design 4; fewer kept bits than 1 act as 1, and more than 15 as 15. The compiler takes what depends on them alone out of a loop over pairs.
#[derive(Clone, Copy)]
pub struct Truncated {
    pub kept_bits: u32,
}

impl Multiplier for Truncated {
    ghost design = { λ d. truncated (clamped d.kept_bits) };

    ghost keeps = { λ d. Prim.search rules };

    fn residue(self, w: i16, x: i16) -> i32 {
        let t = KeptBits::of(self.kept_bits);
        residue_by(
            pairs::true_product(w, x),
            t.with_carry(log_sum(t.cut(pattern(w)), t.cut(pattern(x)))),
        )
    }
}

// Design 5, with the kept bits taken as by design 4.
#[derive(Clone, Copy)]
pub struct TwiceTruncated {
    pub kept_bits: u32,
}

impl Multiplier for TwiceTruncated {
    ghost design = { λ d. twice_truncated (clamped d.kept_bits) };

    ghost keeps = { λ d. Prim.search rules };

    fn residue(self, w: i16, x: i16) -> i32 {
        let t = KeptBits::of(self.kept_bits);
        let z = pairs::true_product(w, x);
        let a = pairs::size(w);
        let b = pairs::size(x);
        let low = is_low(t, z, a, b);
        less_size(
            z,
            first_stage(t, z, a, b) + second_stage(left_over(low, a), left_over(low, b)),
        )
    }
}
