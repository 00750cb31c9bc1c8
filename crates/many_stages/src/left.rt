// Loops over the raised patterns of some numbers: their making, what stages of design 3 leave of the numbers, and their sum.
ghost use Rattle.std.specs.Prelude.{◌≡◌, ℕ, ◌^◌, ◌<◌, ◌≤◌, length, ℤ};
ghost use Rattle.std.specs.Int.Signed.{mag};
ghost use Rattle.designs.specs.Signs.{left_ℤ};
ghost use Rattle.patterns.specs.Blocks.{place};
ghost use Rattle.blocks.specs.Counts.{total};
ghost use Rattle.many_stages.specs.Strips.{Leaving, Patterned};

use crate::count::Stages;
use crate::powers;

// The patterns of what f makes of numbers, as many as there are places. A number that was read has 16 bits.
pub(crate) fn raise<F: Fn(i16) -> i16>(numbers: &[i16], left: &mut [u32], f: F)
    requires { (length left.old ≤ length numbers.now) × F.IsAlwaysCallable f }
    ensures { (h : ℤ → ℤ) → ((x y : ℤ) → mag x < 2 ^ 15 → F.post f x y → y ≡ h x) → Patterned (length left.old) (λ k. h (place numbers.now k)) left.new × ((k : ℕ) → k < length left.old → mag (place numbers.now k) < 2 ^ 15) }
{
    for (j, p) in left.iter_mut().enumerate() {
        let x = numbers[j];
        *p = patterns::raised(f(x));
    }
}

// The patterns of what f leaves of the numbers, in their places: f takes and gives patterns.
fn next<F: Fn(u32) -> u32>(left: &mut [u32], f: F)
    requires { (h : ℤ → ℤ) × (n : ℕ) × (g : ℕ → ℤ) × Leaving (F.pre f) (F.post f) h × (length left.old ≡ n) × Patterned n g left.old }
    ensures { (h : ℤ → ℤ) (n : ℕ) (g : ℕ → ℤ) → Leaving (F.pre f) (F.post f) h → length left.old ≡ n → Patterned n g left.old → Patterned n (λ k. h (g k)) left.new }
{
    for p in left.iter_mut() {
        *p = f(*p);
    }
}

// Those of what all stages leave: as many as there are by fours, and the others one by one.
pub(crate) fn leave(stages: Stages, left: &mut [u32])
    requires { (n : ℕ) × (f : ℕ → ℤ) × (length left.old ≡ n) × Patterned n f left.old }
    ensures { (n : ℕ) (f : ℕ → ℤ) → length left.old ≡ n → Patterned n f left.old → Patterned n (λ k. left_ℤ stages.count (f k)) left.new }
{
    for _fours in 0..stages.count / 4 {
        next(left, powers::rest_of_four);
    }
    for _ones in 0..stages.count % 4 {
        next(left, powers::rest);
    }
}

// The sum of the numbers.
pub(crate) fn sum(left: &[u32]) -> i32
    requires { (n : ℕ) × (f : ℕ → ℤ) × (length left.now ≡ n) × Patterned n f left.now × (n ≤ 128) }
    ensures { (n : ℕ) (f : ℕ → ℤ) → length left.now ≡ n → Patterned n f left.now → result ≡ total f n }
{
    let mut sum = 0;
    for p in left {
        sum += powers::number(*p);
    }
    sum
}
