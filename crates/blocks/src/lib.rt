// A block of pairs at once, as rows take them: the residues of the first pairs of two slices, into the first places of a block, and what these
// pairs add up to. Any slices are taken. The pairs are as many as both have numbers and the block has places; by design 3 a pair takes two
// places. The other places keep their contents. Every number here has 32 bits, so that the compiler takes four pairs at a time.
#![tactic(auto)]

ghost use Rattle.std.specs.Prelude.{◌≡◌, ◌+◌, ◌≤◌, List, ℤ, ◌*ℤ◌, length};
ghost use Rattle.std.proofs.Common.{rules};
ghost use Rattle.designs.specs.Designs.{mitchell, nearest, truncated, twice_truncated};
ghost use Rattle.patterns.specs.Blocks.{Done, place, Small};
ghost use Rattle.patterns.specs.Patterns.{clamped};
ghost use Rattle.blocks.specs.Filled.{Filled, of-stages, of-taken};
ghost use Rattle.blocks.specs.Residues.{Residues};
ghost use Rattle.blocks.specs.Sums.{Held, Taken, taken, TakenByStages};
ghost use Rattle.blocks.specs.declared.sums.BlockSums.{BlockSums};

mod sums;

use crate::sums::{added, with_pair};
use patterns::methods::{Mitchell, Multiplier, Nearest, Staged, Truncated, TwiceTruncated};
pub use sums::BlockSums;

// The most pairs of a block.
pub const BLOCK: usize = 64;

// A design that takes pairs by blocks of N places, which have room for a block and fit in memory. `taken` is all that it promises of them, and
// `holds` what every design does.
pub trait ByBlocks<const N: usize>: Multiplier {
    ghost taken: { Self → List ℤ → List ℤ → List ℤ → List ℤ → BlockSums → Type 0 };

    fn fill(self, weights: &[i16], frame: &[i16], block: &mut [i32; N]) -> BlockSums
        ensures { taken self weights.now frame.now block.old block.new result };

    ghost room: { (64 ≤ N) × (N ≤ 128) };

    ghost holds: { (d : Self) (ws fs before after : List ℤ) (s : BlockSums) → taken d ws fs before after s → Filled (Self.design d) ws fs before after s };
}

impl ByBlocks<BLOCK> for Mitchell {
    ghost taken = { λ d. Taken mitchell };

    ghost room = { Prim.search rules };

    ghost holds = { λ d ws fs before after s t. of-taken t };

    fn fill(self, weights: &[i16], frame: &[i16], block: &mut [i32; BLOCK]) -> BlockSums {
        together::<Mitchell>(self, weights, frame, block)
    }
}

// With the sums in the same loop it would take twice as long.
impl ByBlocks<BLOCK> for Nearest {
    ghost taken = { λ d. Taken nearest };

    ghost room = { Prim.search rules };

    ghost holds = { λ d ws fs before after s t. of-taken t };

    fn fill(self, weights: &[i16], frame: &[i16], block: &mut [i32; BLOCK]) -> BlockSums {
        residues(self, weights, frame, block);
        added(weights, frame, &block[..])
    }
}

// What the stages leave of both numbers of each pair, multiplied. Behind the residues stands what they leave of the frame.
impl ByBlocks<TWO_BLOCKS> for Staged {
    ghost taken = { λ d. TakenByStages d.stages };

    ghost room = { Prim.search rules };

    ghost holds = { λ d ws fs before after s t. of-stages t };

    fn fill(self, weights: &[i16], frame: &[i16], block: &mut [i32; TWO_BLOCKS]) -> BlockSums {
        let n = patterns::pairs_left(self.stages, weights, frame, &mut block[..]);
        let (of_weights, of_frame) = block.split_at_mut(n);
        multiply(of_weights, of_frame);
        added(weights, frame, &block[..])
    }
}

const TWO_BLOCKS: usize = 2 * BLOCK;

// With the kept bits taken as `patterns` takes them.
impl ByBlocks<BLOCK> for Truncated {
    ghost taken = { λ d. Taken (truncated (clamped d.kept_bits)) };

    ghost room = { Prim.search rules };

    ghost holds = { λ d ws fs before after s t. of-taken t };

    fn fill(self, weights: &[i16], frame: &[i16], block: &mut [i32; BLOCK]) -> BlockSums {
        together::<Truncated>(self, weights, frame, block)
    }
}

impl ByBlocks<BLOCK> for TwiceTruncated {
    ghost taken = { λ d. Taken (twice_truncated (clamped d.kept_bits)) };

    ghost room = { Prim.search rules };

    ghost holds = { λ d ws fs before after s t. of-taken t };

    fn fill(self, weights: &[i16], frame: &[i16], block: &mut [i32; BLOCK]) -> BlockSums {
        together::<TwiceTruncated>(self, weights, frame, block)
    }
}

// The residues and the sums in one loop.
fn together<D: Multiplier>(
    d: D,
    weights: &[i16],
    frame: &[i16],
    block: &mut [i32; BLOCK],
) -> BlockSums
    ensures { Taken (D.design d) weights.now frame.now block.old block.new result }
{
    let n = pairs::taken(weights.len(), frame.len(), BLOCK);
    let mut sums = BlockSums::default();
    for j in 0..n {
        let w = weights[j];
        let x = frame[j];
        let residue = d.residue(w, x);
        block[j] = residue;
        sums = with_pair(sums, w, x, residue);
    }
    sums
}

// The residues alone.
fn residues<D: Multiplier>(d: D, weights: &[i16], frame: &[i16], block: &mut [i32; BLOCK])
    ensures { Residues (D.design d) weights.now frame.now (taken weights.now frame.now) block.old block.new × Held weights.now frame.now block.new }
{
    let n = pairs::taken(weights.len(), frame.len(), BLOCK);
    for j in 0..n {
        block[j] = d.residue(weights[j], frame[j]);
    }
}

// Multiplies each number by the one at its place.
fn multiply(numbers: &mut [i32], by: &[i32])
    requires { Small (length numbers.old) numbers.old × Small (length numbers.old) by.now }
    ensures { Done (λ k. place numbers.old k *ℤ place by.now k) (length numbers.old) numbers.old numbers.new }
{
    for (j, p) in numbers.iter_mut().enumerate() {
        *p *= by[j];
    }
}
