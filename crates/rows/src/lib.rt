// Scoring a row of weights against a frame (docs/SCOPE.md, "Scoring a row"). The report gives the score with its exact error, and the
// residue of each pair goes to a slice that the caller lends. Weights and frame are two slices throughout, as C lends them.
#![tactic(auto)]

ghost use Rattle.std.specs.Prelude.{◌≡◌};
ghost use Rattle.designs.specs.Rows.{empty_report};
ghost use Rattle.rows.specs.Answers.{Ready, Reported, Scoring, report_of};
ghost use Rattle.rows.specs.Totals.{in_blocks};

mod by_blocks;
mod one_by_one;
mod sums;
mod worst;

use crate::by_blocks::by_blocks;
use crate::one_by_one::one_by_one;
use crate::sums::report_of;
use blocks::ByBlocks;
use patterns::methods::{Mitchell, Nearest, Staged, Truncated, TwiceTruncated};
use refusals::Refusal;

// The report of a row: `magnitude_sum` is the scope's T, and `nonzero_pairs` its n. `largest_residue` is the largest size of a residue, and
// `largest_place` the first place that has it. It is laid out as C has it.
#[repr(C)]
#[derive(Clone, Copy, Debug, Default, PartialEq, Eq)]
pub struct RowReport {
    pub score: i64,
    pub true_sum: i64,
    pub error: i64,
    pub magnitude_sum: u64,
    pub nonzero_pairs: u64,
    pub largest_residue: u64,
    pub largest_place: u64,
}

impl RowReport {
    // The report of a row without pairs: nothing but zeros.
    pub fn empty() -> Self
        ensures { report_of result ≡ empty_report }
    {
        Self::default()
    }
}

// Rows of fewer pairs take less time one by one than by a block.
const FEW: usize = 8;

// How many of so many pairs go by blocks: those of whole fours, since the compiler takes four at a time, and none of a few. The others go one by
// one, each in one loop, where a block would have three for them.
fn in_blocks(pairs: usize) -> usize
    ensures { result ≡ in_blocks pairs }
{
    if pairs < FEW {
        return 0;
    }
    pairs / 4 * 4
}

// Scores a row by the design that is asked for. Place i of `residues` gets what pair i leaves; a refused row leaves every place as it was. It
// calls the row of that design: with all five reports made here, each answer was copied twice on its way to a caller in Rattle.
pub fn score_row(
    design: u32,
    setting: u32,
    weights: &[i16],
    frame: &[i16],
    residues: &mut [i64],
) -> Result<RowReport, Refusal>
    ensures { Scoring design setting weights.now frame.now residues.old residues.new result }
{
    if design == 1 {
        return score_row_mitchell(setting, weights, frame, residues);
    }
    if design == 2 {
        return score_row_nearest(setting, weights, frame, residues);
    }
    if design == 3 {
        return score_row_staged(setting, weights, frame, residues);
    }
    if design == 4 {
        return score_row_truncated(setting, weights, frame, residues);
    }
    if design == 5 {
        return score_row_twice_truncated(setting, weights, frame, residues);
    }
    Err(Refusal::UnknownDesign)
}

// The same by design 1 alone, Mitchell's, which takes the setting 0. C calls this row and the four after it each by its name.
pub fn score_row_mitchell(
    setting: u32,
    weights: &[i16],
    frame: &[i16],
    residues: &mut [i64],
) -> Result<RowReport, Refusal>
    ensures { Scoring 1 setting weights.now frame.now residues.old residues.new result }
{
    refusals::of_row(1, setting, weights.len(), frame.len(), residues.len())?;
    Ok(report(Mitchell, weights, frame, residues))
}

// By design 2 alone, the nearest power, which takes the setting 0.
pub fn score_row_nearest(
    setting: u32,
    weights: &[i16],
    frame: &[i16],
    residues: &mut [i64],
) -> Result<RowReport, Refusal>
    ensures { Scoring 2 setting weights.now frame.now residues.old residues.new result }
{
    refusals::of_row(2, setting, weights.len(), frame.len(), residues.len())?;
    Ok(report(Nearest, weights, frame, residues))
}

// By design 3 alone; the setting is the number of stages.
pub fn score_row_staged(
    setting: u32,
    weights: &[i16],
    frame: &[i16],
    residues: &mut [i64],
) -> Result<RowReport, Refusal>
    ensures { Scoring 3 setting weights.now frame.now residues.old residues.new result }
{
    refusals::of_row(3, setting, weights.len(), frame.len(), residues.len())?;
    Ok(report(Staged { stages: setting }, weights, frame, residues))
}

// By design 4 alone; the setting is the number of kept bits.
pub fn score_row_truncated(
    setting: u32,
    weights: &[i16],
    frame: &[i16],
    residues: &mut [i64],
) -> Result<RowReport, Refusal>
    ensures { Scoring 4 setting weights.now frame.now residues.old residues.new result }
{
    refusals::of_row(4, setting, weights.len(), frame.len(), residues.len())?;
    Ok(report(Truncated { kept_bits: setting }, weights, frame, residues))
}

// By design 5 alone; the setting is the number of bits that its first stage keeps.
pub fn score_row_twice_truncated(
    setting: u32,
    weights: &[i16],
    frame: &[i16],
    residues: &mut [i64],
) -> Result<RowReport, Refusal>
    ensures { Scoring 5 setting weights.now frame.now residues.old residues.new result }
{
    refusals::of_row(5, setting, weights.len(), frame.len(), residues.len())?;
    Ok(report(
        TwiceTruncated { kept_bits: setting },
        weights,
        frame,
        residues,
    ))
}

// The report of a row that is not refused: its first pairs by blocks, and the others one by one.
fn report<const N: usize, D: ByBlocks<N>>(
    d: D,
    weights: &[i16],
    frame: &[i16],
    residues: &mut [i64],
) -> RowReport
    requires { Ready (D.design d) weights.now frame.now residues.old }
    ensures { Reported (D.design d) weights.now frame.now residues.old residues.new result }
{
    let to = in_blocks(weights.len());
    let first = by_blocks(d, to, weights, frame, residues);
    let sums = one_by_one(d, first, to, weights, frame, residues);
    report_of(sums, weights.len())
}
