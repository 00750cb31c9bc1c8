// Going over the first pairs of a row in blocks, by any design: first a block with its sums, by numbers of 32 bits alone and so four pairs at a
// time, and then what it adds to the row.
ghost use Rattle.std.specs.Prelude.{◌≤◌, length};
ghost use Rattle.rows.specs.Answers.{Ready};
ghost use Rattle.rows.specs.Totals.{Going};

use crate::sums::{Sums, add};
use blocks::{BLOCK, ByBlocks};

// What a place of a block holds before it is filled. The bytes of this number differ: equal ones, as those of 0 are, the compiler would set
// by one call of memset more.
const UNSET: i32 = 258;

// Up to pair `to`. Where there is nothing to do, no block is filled.
pub(crate) fn by_blocks<const N: usize, D: ByBlocks<N>>(
    d: D,
    to: usize,
    weights: &[i16],
    frame: &[i16],
    residues: &mut [i64],
) -> Sums
    requires { Ready (D.design d) weights.now frame.now residues.old × (to ≤ length weights.now) }
    ensures { Going (D.design d) weights.now frame.now residues.old residues.new to result }
{
    let mut sums = Sums::default();
    if to == 0 {
        return sums;
    }
    let mut block = [UNSET; N];
    let mut at = 0;
    // a `for` by steps of 64 makes a second test for each block, and a row of eight pairs takes 6 % longer
    while at < to {
        let end = at + pairs::fewer(to - at, BLOCK);
        let all = d.fill(&weights[at..end], &frame[at..end], &mut block);
        sums = add(sums, all, at, end, &block[..], residues);
        at = end;
    }
    sums
}
