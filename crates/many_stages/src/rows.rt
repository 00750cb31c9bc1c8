// A strip of the frame against all rows: the sums so far stand in the places for the scores. `strips` has this loop too, over a trait that asks
// for the codes of the part, and so is not public.
ghost use Rattle.std.specs.Prelude.{◌≡◌, length};
ghost use Rattle.designs.specs.Designs.{staged};
ghost use Rattle.patterns.specs.Blocks.{place};
ghost use Rattle.strips.specs.Strips.{Room, Stripped};
ghost use Rattle.many_stages.specs.Strips.{Coded, excess_of};

use crate::count::Stages;
use crate::{CODES, STRIP, sums};

// Each row takes the strip that begins at column `from`. Where a place has no room for its sum, that wraps.
pub(crate) fn staged(
    stages: Stages,
    columns: usize,
    from: usize,
    weights: &[i16],
    part: &[i16],
    held: &[u32; CODES],
    excess: i64,
    left: &mut [u32; STRIP],
    scores: &mut [i64],
)
    requires { Coded stages.count part.now held.now × (excess ≡ excess_of stages.count (place part.now) (length part.now)) }
    ensures { Room from scores.old → Stripped (staged stages.count) columns from weights.now part.now scores.old scores.new }
{
    let mut at = 0;
    for score in scores.iter_mut() {
        let start = strips::ahead(at, from, weights.len());
        let before = strips::so_far(from, *score);
        *score = before.wrapping_add(sums::sum(
            stages,
            &weights[start..],
            part,
            held,
            excess,
            left,
        ));
        at = strips::ahead(at, columns, weights.len());
    }
}
