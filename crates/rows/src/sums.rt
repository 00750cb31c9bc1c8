// The sums of a row, whatever its design: what a pair adds to them, and what a block of pairs does.
ghost use Rattle.std.specs.Prelude.{◌≡◌, ℕ, ◌+◌, ◌*◌, ◌^◌, ◌≤◌, ◌<◌, List, ℤ, nat_abs};
ghost use Rattle.rows.specs.Answers.{report_of};
ghost use Rattle.rows.specs.Totals.{Addable, Reached, report_by, Roomy, Turnable, with_all, with_pair, Writable, Written};

use crate::worst::Worst;
use crate::{RowReport, worst};

// The sums of some pairs, and the worst of them. Counted are those that hold a zero, as in a block. By default those of no pairs.
#[derive(Clone, Copy, Default)]
pub(crate) struct Sums {
    pub(crate) true_sum: i64,
    pub(crate) error: i64,
    pub(crate) magnitude_sum: u64,
    pub(crate) zero_pairs: u32,
    pub(crate) worst: Worst,
}

// The sums with pair `at`, the next one.
fn with_pair(sums: Sums, w: i16, x: i16, residue: i64, at: usize) -> Sums
    requires { Roomy sums × (nat_abs residue < 2 ^ 62) }
    ensures { result ≡ with_pair sums w x residue at }
{
    Sums {
        true_sum: sums.true_sum + pairs::true_product(w, x) as i64,
        error: sums.error + residue,
        magnitude_sum: sums.magnitude_sum + pairs::true_size(w, x) as u64,
        zero_pairs: sums.zero_pairs + pairs::holds_zero(w, x),
        worst: worst::with_residue(sums.worst, residue, at),
    }
}

// Adds pair `at` of a row to the sums of the pairs before it, and writes its residue to its place.
pub(crate) fn turn(
    sums: Sums,
    w: i16,
    x: i16,
    residue: i32,
    at: usize,
    residues: &mut [i64],
) -> Sums
    requires { (z : ℕ → ℤ) × ((ws : List ℤ) × ((fs : List ℤ) × ((before : List ℤ) × Turnable z ws fs before residues.old at sums w x residue))) }
    ensures { (z : ℕ → ℤ) (ws fs before : List ℤ) → Turnable z ws fs before residues.old at sums w x residue → Reached z ws fs before residues.new (at + 1) result }
{
    let wide = residue as i64;
    residues[at] = wide;
    with_pair(sums, w, x, wide, at)
}

// Adds the pairs from `from` up to `end`, whose residues are in a block, and which add up to `all`.
pub(crate) fn add(
    sums: Sums,
    all: blocks::BlockSums,
    from: usize,
    end: usize,
    block: &[i32],
    residues: &mut [i64],
) -> Sums
    requires { (z : ℕ → ℤ) × ((ws : List ℤ) × ((fs : List ℤ) × ((before : List ℤ) × Addable z ws fs before residues.old sums all block.now from end))) }
    ensures { (z : ℕ → ℤ) (ws fs before : List ℤ) → Addable z ws fs before residues.old sums all block.now from end → Reached z ws fs before residues.new end result }
{
    let error = write(sums.error, from, end, block, residues);
    let worst = worst::with_block(sums.worst, all.largest, from, end, block);
    with_all(sums, all, error, worst)
}

// The sums with a block whose pairs add up to `all`, and with the error and the worst pair up to its end. The sizes of the products below 0
// count twice against those of all.
fn with_all(sums: Sums, all: blocks::BlockSums, error: i64, worst: Worst) -> Sums
    requires { Roomy sums × (all.zero_pairs < 2 ^ 31) }
    ensures { result ≡ with_all sums all error worst }
{
    let sizes = joined(all.sizes_high, all.sizes_low);
    let minus = joined(all.minus_high, all.minus_low);
    Sums {
        true_sum: sums.true_sum + sizes as i64 - (2 * minus) as i64,
        error,
        magnitude_sum: sums.magnitude_sum + sizes,
        zero_pairs: sums.zero_pairs + all.zero_pairs,
        worst,
    }
}

// A sum of a block from its two halves.
fn joined(high: u32, low: u32) -> u64
    ensures { result ≡ high * 65536 + low }
{
    high as u64 * 65536 + low as u64
}

// Writes the residues of a block to the places from `from` up to `end`, and gives the error with them.
fn write(error: i64, from: usize, end: usize, block: &[i32], residues: &mut [i64]) -> i64
    requires { (z : ℕ → ℤ) × ((before : List ℤ) × Writable z before residues.old error block.now from end) }
    ensures { (z : ℕ → ℤ) (before : List ℤ) → Writable z before residues.old error block.now from end → Written z before residues.new end result }
{
    let mut all = error;
    for at in from..end {
        let residue = block[at - from] as i64;
        residues[at] = residue;
        all += residue;
    }
    all
}

// The report that the sums of so many pairs make.
pub(crate) fn report_of(sums: Sums, pairs: usize) -> RowReport
    requires { Roomy sums × (sums.zero_pairs ≤ pairs) }
    ensures { report_of result ≡ report_by sums pairs }
{
    RowReport {
        score: sums.true_sum - sums.error,
        true_sum: sums.true_sum,
        error: sums.error,
        magnitude_sum: sums.magnitude_sum,
        nonzero_pairs: pairs as u64 - sums.zero_pairs as u64,
        largest_residue: sums.worst.size,
        largest_place: sums.worst.place as u64,
    }
}
