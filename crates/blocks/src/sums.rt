// What the pairs of a block add up to, whatever their design.
ghost use Rattle.std.specs.Prelude.{◌≡◌, ℕ, max, ◌^◌, ◌<◌, pos, nat_abs};
ghost use Rattle.patterns.specs.Blocks.{place};
ghost use Rattle.blocks.specs.Sums.{Adds, Held, no_sums, Roomy, taken, with_pair};

use crate::BLOCK;

// The sizes of the true products, and of these those of the products below 0 once more, each sum as high × 2^16 + low; how many pairs hold a
// zero, since adding up a comparison with 0 takes an instruction less than adding up its opposite; and the
// largest size of a residue, as a number with a sign: of such numbers the compiler finds the larger of four at a time. By default those of no
// pairs.
#[derive(Clone, Copy, Default)]
pub struct BlockSums {
    pub sizes_high: u32,
    pub sizes_low: u32,
    pub minus_high: u32,
    pub minus_low: u32,
    pub zero_pairs: u32,
    pub largest: i32,
}

// The sums with one pair more.
pub(crate) fn with_pair(sums: BlockSums, w: i16, x: i16, residue: i32) -> BlockSums
    requires { Roomy sums × (nat_abs residue < 2 ^ 31) }
    ensures { result ≡ with_pair sums w x residue }
{
    let size = pairs::true_size(w, x);
    let minus = pairs::minus_size(w, x);
    BlockSums {
        sizes_high: sums.sizes_high + size / 65536,
        sizes_low: sums.sizes_low + size % 65536,
        minus_high: sums.minus_high + minus / 65536,
        minus_low: sums.minus_low + minus % 65536,
        zero_pairs: sums.zero_pairs + pairs::holds_zero(w, x),
        largest: sums.largest.max(residue.abs()),
    }
}

// What pairs add up to whose residues are in a block.
pub(crate) fn added(weights: &[i16], frame: &[i16], block: &[i32]) -> BlockSums
    requires { Held weights.now frame.now block.now }
    ensures { Adds (place block.now) (place weights.now) (place frame.now) (taken weights.now frame.now) result }
{
    let n = pairs::taken(weights.len(), frame.len(), BLOCK);
    let mut sums = BlockSums::default();
    for j in 0..n {
        sums = with_pair(sums, weights[j], frame[j], block[j]);
    }
    sums
}
