// What a strip of the frame becomes, once for all rows of a block: the codes of the powers that its numbers are sums of.
ghost use Rattle.std.specs.Prelude.{◌≡◌, ℕ, ◌+◌, ◌*◌, ◌<◌, ◌≤◌, length, ℤ, ◌-ℤ◌, unsigned_abs};
ghost use Rattle.designs.specs.Signs.{left_ℤ};
ghost use Rattle.patterns.specs.Blocks.{place};
ghost use Rattle.many_stages.specs.Powers.{next_power};
ghost use Rattle.many_stages.specs.Strips.{Coded, excess_of, Filled, Finding, Patterned, Powered, Short, Stepping};

use crate::count::Stages;
use crate::{STRIP, left, powers};

// Where the codes of the low bytes begin, and those of what the stages leave.
pub(crate) const LOW: usize = 512;

pub(crate) const LEFT: usize = 1024;

// The codes of the next powers of the numbers, as `power` finds them, at places from `at` on; what the powers leave takes the place of the
// numbers. A part of `held` in place of `at` is no plainer: each call would name both its ends, and that a run leaves the places of the runs
// before, which `spread` needs, would have to be said of the whole all the same.
fn take_off<F: Fn(u32) -> u32>(at: usize, left: &mut [u32], held: &mut [u32], power: F)
    requires { F.IsAlwaysCallable power × ((n : ℕ) × (f : ℕ → ℤ) × Finding (F.post power) n f × (length left.old ≡ n) × Stepping n f at left.old held.old) }
    ensures { (n : ℕ) (f : ℕ → ℤ) → Finding (F.post power) n f → length left.old ≡ n → Stepping n f at left.old held.old → Patterned n (λ k. f k -ℤ next_power (f k)) left.new × Filled at n (λ k. next_power (f k)) held.old held.new }
{
    for (j, p) in left.iter_mut().enumerate() {
        let q = power(*p);
        held[at + j] = powers::code(q);
        *p = powers::less(*p, q);
    }
}

// Those of the numbers themselves, none of which is 0.
fn last(at: usize, left: &[u32], held: &mut [u32])
    requires { at + length left.now ≤ length held.old }
    ensures { (n : ℕ) (f : ℕ → ℤ) → length left.now ≡ n → Patterned n f left.now → ((k : ℕ) → k < n → 0 < unsigned_abs (f k)) → Filled at n f held.old held.new }
{
    for (j, p) in left.iter().enumerate() {
        held[at + j] = powers::code(*p);
    }
}

// The codes of m + 1 powers of each of the numbers. Any of them may be 0, but what a power leaves is not.
fn spread(m: usize, at: usize, left: &mut [u32], held: &mut [u32])
    requires { ((n : ℕ) × (f : ℕ → ℤ) × (length left.old ≡ n) × Short n f left.old) × (1 ≤ m) × (m ≤ 5) × (length left.old ≤ 128) × (at + 128 * m + 128 ≤ length held.old) }
    ensures { (n : ℕ) (f : ℕ → ℤ) → length left.old ≡ n → Short n f left.old → Powered m at n f held.old held.new }
{
    take_off(at, left, held, powers::first_power);
    for i in 1..m {
        take_off(at + STRIP * i, left, held, powers::beyond);
    }
    last(at + STRIP * m, left, held);
}

// What the offsets of weights add to their sum with as many numbers of a part as there are places. The patterns of what the stages leave of
// the numbers stay.
pub(crate) fn excess(stages: Stages, part: &[i16], left: &mut [u32]) -> i64
    requires { (length left.old ≤ length part.now) × (length left.old ≤ 128) }
    ensures { (result ≡ excess_of stages.count (place part.now) (length left.old)) × Patterned (length left.old) (λ k. left_ℤ stages.count (place part.now k)) left.new }
{
    left::raise(part, left, |x| x);
    let numbers = left::sum(left) as i64;
    left::leave(stages, left);
    let rests = left::sum(left) as i64;
    numbers * 32768 + numbers - rests * 2048
}

// The codes of a part, and what the offsets add to the sums of rows with all of it.
pub(crate) fn coded(stages: Stages, part: &[i16], held: &mut [u32], left: &mut [u32]) -> i64
    requires { (length part.now ≤ 128) × (length held.old ≡ 1792) × (length left.old ≡ length part.now) }
    ensures { Coded stages.count part.now held.new × (result ≡ excess_of stages.count (place part.now) (length part.now)) }
{
    left::raise(part, left, powers::high_byte);
    spread(3, 0, left, held);
    left::raise(part, left, powers::low_byte);
    spread(3, LOW, left, held);
    let over = excess(stages, part, left);
    spread(5, LEFT, left, held);
    over
}
