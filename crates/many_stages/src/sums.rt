// The sum of the products of one row with a strip of the frame. A weight is taken with an offset, so that none is 0, and what the offsets add is
// taken off again.
ghost use Rattle.std.specs.Prelude.{◌≡◌, ℕ, ◌<◌, ◌≤◌, List, length, ℤ, pos, ◌+ℤ◌, ◌*ℤ◌};
ghost use Rattle.designs.specs.Designs.{staged};
ghost use Rattle.designs.specs.Signs.{left_ℤ};
ghost use Rattle.patterns.specs.Blocks.{place};
ghost use Rattle.blocks.specs.Counts.{total};
ghost use Rattle.strips.specs.Strips.{Summed};
ghost use Rattle.many_stages.specs.Strips.{Coded, excess_of, Four, FourAt, Ready, ReadyRests, Six, SixAt};

use crate::count::Stages;
use crate::frame::{LEFT, LOW};
use crate::{CODES, STRIP, frame, left, powers};

// The raised patterns of the offsets: 32,769 for a weight, and 2,048 for what four stages or more leave of it.
const OFFSET: u32 = (158 << 23) + 256;

const LOW_OFFSET: u32 = 154 << 23;

// A number times one of at most 128, which is the sum of four powers. The floats are whole and below 2^24, so that their sums are exact.
fn four(p: u32, a: u32, b: u32, c: u32, d: u32) -> i32
    requires { (w : ℤ) × (z : ℤ) × Four w z p a b c d }
    ensures { (w z : ℤ) → Four w z p a b c d → result ≡ w *ℤ z }
{
    let first = f32::from_bits(std::num::wrapping_add_u32(p, a));
    let second = f32::from_bits(std::num::wrapping_add_u32(p, b));
    let third = f32::from_bits(std::num::wrapping_add_u32(p, c));
    let fourth = f32::from_bits(std::num::wrapping_add_u32(p, d));
    (first + second + third + fourth) as f64 as i32
}

// A number of at most 12 bits times one of 11, which is the sum of six powers.
fn six(p: u32, a: u32, b: u32, c: u32, d: u32, e: u32, f: u32) -> i32
    requires { (w : ℤ) × (z : ℤ) × Six w z p a b c d e f }
    ensures { (w z : ℤ) → Six w z p a b c d e f → result ≡ w *ℤ z }
{
    let first = f32::from_bits(std::num::wrapping_add_u32(p, a));
    let second = f32::from_bits(std::num::wrapping_add_u32(p, b));
    let third = f32::from_bits(std::num::wrapping_add_u32(p, c));
    let fourth = f32::from_bits(std::num::wrapping_add_u32(p, d));
    let fifth = f32::from_bits(std::num::wrapping_add_u32(p, e));
    let sixth = f32::from_bits(std::num::wrapping_add_u32(p, f));
    (first + second + third + fourth + fifth + sixth) as f64 as i32
}

// The same with the codes at their places, from `at` on.
fn four_at(p: u32, at: usize, held: &[u32; CODES]) -> i32
    requires { (w : ℤ) × (z : ℤ) × FourAt w z p at held.now }
    ensures { (w z : ℤ) → FourAt w z p at held.now → result ≡ w *ℤ z }
{
    four(p, held[at], held[at + 128], held[at + 256], held[at + 384])
}

fn six_at(p: u32, at: usize, held: &[u32; CODES]) -> i32
    requires { (w : ℤ) × (z : ℤ) × SixAt w z p at held.now }
    ensures { (w z : ℤ) → SixAt w z p at held.now → result ≡ w *ℤ z }
{
    six(
        p,
        held[at],
        held[at + 128],
        held[at + 256],
        held[at + 384],
        held[at + 512],
        held[at + 640],
    )
}

// Two sums in one, of which the first counts 256 times.
fn joined(high: i32, low: i32) -> i64
    ensures { result ≡ high *ℤ pos 256 +ℤ low }
{
    high as i64 * 256 + low as i64
}

// The sum of the true products of the numbers, each with its offset, and those of a part.
fn whole(left: &[u32], held: &[u32; CODES]) -> i64
    requires { (s : ℕ) × (n : ℕ) × (part : List ℤ) × (f : ℕ → ℤ) × (length left.now ≡ n) × Ready s n part f left.now held.now }
    ensures { (s n : ℕ) (part : List ℤ) (f : ℕ → ℤ) → length left.now ≡ n → Ready s n part f left.now held.now → result ≡ total (λ k. (f k +ℤ pos 32769) *ℤ place part k) n }
{
    let mut high = 0;
    let mut low = 0;
    for (j, w) in left.iter().enumerate() {
        let p = powers::plus(*w, OFFSET);
        high += four_at(p, j, held);
        low += four_at(p, LOW + j, held);
    }
    joined(high, low)
}

// That of what the stages leave of both, with the other offset.
fn rests(left: &[u32], held: &[u32; CODES]) -> i64
    requires { (s : ℕ) × (n : ℕ) × (part : List ℤ) × (f : ℕ → ℤ) × (length left.now ≡ n) × ReadyRests s n part f left.now held.now }
    ensures { (s n : ℕ) (part : List ℤ) (f : ℕ → ℤ) → length left.now ≡ n → ReadyRests s n part f left.now held.now → result ≡ total (λ k. (f k +ℤ pos 2048) *ℤ left_ℤ s (place part k)) n }
{
    let mut sum = 0;
    for (j, w) in left.iter().enumerate() {
        let p = powers::plus(*w, LOW_OFFSET);
        sum += six_at(p, LEFT + j, held);
    }
    sum as i64
}

// What the offsets add where as many numbers of a part are taken as there are places: `all` where that is the whole part.
fn excess(stages: Stages, part: &[i16], all: i64, left: &mut [u32]) -> i64
    requires { (length left.old ≤ length part.now) × (length part.now ≤ 128) × (all ≡ excess_of stages.count (place part.now) (length part.now)) }
    ensures { result ≡ excess_of stages.count (place part.now) (length left.old) }
{
    if left.len() < part.len() {
        return frame::excess(stages, part, left);
    }
    all
}

// The sum of the products of a row and a part.
pub(crate) fn sum(
    stages: Stages,
    row: &[i16],
    part: &[i16],
    held: &[u32; CODES],
    all: i64,
    left: &mut [u32; STRIP],
) -> i64
    requires { Coded stages.count part.now held.now × (all ≡ excess_of stages.count (place part.now) (length part.now)) }
    ensures { Summed (staged stages.count) row.now part.now result }
{
    let n = pairs::fewer(row.len(), part.len());
    let left = &mut left[..n];
    let over = excess(stages, part, all, left);
    left::raise(row, left, |x| x);
    let products = whole(left, held);
    left::leave(stages, left);
    let residues = rests(left, held);
    products - residues - over
}
