// A pair of 16-bit numbers, a weight and a number of a frame: its true product, the size of that and of each number, whether that is below 0,
// and whether the pair holds a zero. No branch of the compiled code depends on the numbers. And how many pairs there are, by the lengths of
// their slices.
#![tactic(auto)]

ghost use Rattle.std.specs.Prelude.{◌≡◌, min, ◌-◌, ◌^◌, ◌<◌, nat_abs, ◌*ℤ◌};
ghost use Rattle.designs.specs.Rows.{nonzero};
ghost use Rattle.pairs.specs.Lengths.{pairs_of};
ghost use Rattle.pairs.specs.Sizes.{minus_size};

// The true product.
pub fn true_product(w: i16, x: i16) -> i32
    ensures { result ≡ w *ℤ x }
{
    (w as i32) * (x as i32)
}

// The size of the true product.
pub fn true_size(w: i16, x: i16) -> u32
    ensures { result ≡ nat_abs (w *ℤ x) }
{
    true_product(w, x).unsigned_abs()
}

// The size of the true product where that is below 0, otherwise 0.
pub fn minus_size(w: i16, x: i16) -> u32
    ensures { result ≡ minus_size (w *ℤ x) }
{
    if true_product(w, x) < 0 {
        true_size(w, x)
    } else {
        0
    }
}

// The size of a number.
pub fn size(x: i16) -> u32
    ensures { result ≡ nat_abs x }
{
    (x as i32).unsigned_abs()
}

// 1 for a pair that holds a zero, otherwise 0.
pub fn holds_zero(w: i16, x: i16) -> u32
    ensures { result ≡ 1 - nonzero w x }
{
    if true_product(w, x) == 0 { 1 } else { 0 }
}

// The smaller of two lengths.
pub fn fewer(a: usize, b: usize) -> usize
    ensures { result ≡ min a b }
{
    a.min(b)
}

// How many pairs are taken of two slices of these lengths, where there is room for so many.
pub fn taken(weights: usize, frame: usize, room: usize) -> usize
    ensures { result ≡ pairs_of weights frame room }
{
    weights.min(frame).min(room)
}
