// The sum of the products of one row with a strip of the frame. A sum is kept in two numbers of 32 bits, so that the compiler takes four pairs
// at a time.
ghost use Rattle.std.specs.Prelude.{◌≡◌, ℕ, ◌*◌, ◌^◌, ◌<◌, ◌≤◌, ℤ, unsigned_abs};
ghost use Rattle.blocks.specs.Counts.{total};
ghost use Rattle.strips.specs.Halves.{joined_of, Roomy, with_number};

// A sum, as high × 2^16 + low. By default that of no numbers.
#[derive(Clone, Copy, Default)]
pub struct Halves {
    pub high: i32,
    pub low: i32,
}

// With one number more, divided by 2^16 and rounded down.
fn with(halves: Halves, z: i32) -> Halves
    requires { Roomy halves }
    ensures { result ≡ with_number halves z }
{
    Halves {
        high: halves.high + (z >> 16),
        low: halves.low + (z & 65535),
    }
}

fn joined(halves: Halves) -> i64
    ensures { result ≡ joined_of halves }
{
    (halves.high as i64) * 65536 + halves.low as i64
}

// The sum of n numbers, by what gives each of them.
pub(crate) fn sum<F: Fn(usize) -> i32>(n: usize, number: F) -> i64
    requires { (n ≤ 64) × ((j : ℕ) → j < n → F.pre number j) }
    ensures { (f : ℕ → ℤ) → ((j : ℕ) (z : ℤ) → j < n → F.post number j z → z ≡ f j) → (result ≡ total f n) × (unsigned_abs (total f n) ≤ n * 2 ^ 33) }
{
    let mut halves = Halves::default();
    for j in 0..n {
        halves = with(halves, number(j));
    }
    joined(halves)
}
