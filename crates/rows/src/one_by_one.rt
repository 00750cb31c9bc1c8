// Going over the rest of a row one by one, by any design: what is left of the fours, or all of a few pairs.
ghost use Rattle.std.specs.Prelude.{List, ℤ};
ghost use Rattle.rows.specs.Totals.{Complete, Ongoing};

use crate::sums::{Sums, turn};
use patterns::methods::Multiplier;

// With the sums of the pairs before `from`.
pub(crate) fn one_by_one<D: Multiplier>(
    d: D,
    before: Sums,
    from: usize,
    weights: &[i16],
    frame: &[i16],
    residues: &mut [i64],
) -> Sums
    requires { (places : List ℤ) × Ongoing (D.design d) weights.now frame.now places residues.old from before }
    ensures { (places : List ℤ) → Ongoing (D.design d) weights.now frame.now places residues.old from before → Complete (D.design d) weights.now frame.now places residues.new result }
{
    let mut sums = before;
    for at in from..weights.len() {
        let w = weights[at];
        let x = frame[at];
        let residue = d.residue(w, x);
        sums = turn(sums, w, x, residue, at, residues);
    }
    sums
}
