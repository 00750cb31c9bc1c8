// What stages of design 3 leave of a block of numbers, one stage over the whole block before the next, so that a stage is vector code
// for any number of stages. The first is made as the numbers come in. The steps inside take sizes of at most 2^15, which the block keeps;
// the numbers that come in are any. A type for such numbers would be put on and taken off at each place of the block, whose
// places are i32.
ghost use Rattle.std.specs.Prelude.{◌≡◌, ◌/◌, ◌^◌, ◌≤◌, min, length, unsigned_abs};
ghost use Rattle.designs.specs.Signs.{left_ℤ, rest_ℤ};
ghost use Rattle.pairs.specs.Lengths.{pairs_of};
ghost use Rattle.patterns.specs.Blocks.{Done, Left, place, Room, Small};

use crate::powers::less_power;

// What one stage leaves of x, with its sign.
fn signed_rest(x: i32) -> i32
    requires { unsigned_abs x ≤ 2 ^ 15 }
    ensures { result ≡ rest_ℤ x }
{
    less_power(x, 0)
}

// One stage over numbers.
fn clear(numbers: &mut [i32])
    requires { Small (length numbers.old) numbers.old }
    ensures { Done (λ i. rest_ℤ (place numbers.old i)) (length numbers.old) numbers.old numbers.new }
{
    for x in numbers.iter_mut() {
        *x = signed_rest(*x);
    }
}

// What the first of the stages leaves of x: x itself where there is none.
fn first_rest(stages: u32, x: i32) -> i32
    requires { unsigned_abs x ≤ 2 ^ 15 }
    ensures { result ≡ left_ℤ (min stages 1) x }
{
    if stages == 0 {
        return x;
    }
    signed_rest(x)
}

// What the first of the stages leaves of n weights, and behind them of n numbers of the frame, to the first places of a block: two runs of
// places side by side, so that no slice has their length.
fn begin(stages: u32, n: usize, weights: &[i16], frame: &[i16], block: &mut [i32])
    requires { Room n weights.now frame.now block.old }
    ensures { Left (min stages 1) weights.now frame.now n block.old block.new }
{
    for i in 0..n {
        block[i] = first_rest(stages, weights[i] as i32);
        block[n + i] = first_rest(stages, frame[i] as i32);
    }
}

// What the stages leave of the numbers of some pairs, each with its sign: of the weights, and behind them of the frame, so that a stage
// goes over both at once. The pairs are as many as both slices have numbers, and at most half as many as there are places; their number
// is handed back. Later places keep their contents.
pub fn pairs_left(stages: u32, weights: &[i16], frame: &[i16], left: &mut [i32]) -> usize
    ensures { (result ≡ pairs_of (length weights.now) (length frame.now) (length left.old / 2)) × Left stages weights.now frame.now result left.old left.new }
{
    let n = pairs::taken(weights.len(), frame.len(), left.len() / 2);
    begin(stages, n, weights, frame, left);
    for _k in 1..stages {
        clear(&mut left[..n + n]);
    }
    n
}
