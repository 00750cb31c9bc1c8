// A row's score and T as binary64 numbers (docs/SCOPE.md, "Handing out a score"). The operation takes any numbers and gives both
// values or the first refusal that applies.
#![tactic(auto)]

ghost use Rattle.std.specs.Prelude.{◌≡◌};
ghost use Rattle.scaling.specs.Scaling.{scaled_given, scaled_outcome, BothExact};

use refusals::Refusal;

// What is accepted: a shift of at most 40, and sizes of at most 2^53.
const LARGEST_SHIFT: u32 = 40;

const LARGEST_SIZE: u64 = 1 << 53;

// The score and T, each divided by 2^shift. `magnitude_sum` is the scope's T.
#[derive(Clone, Copy)]
pub struct Quotients {
    pub score: f64,
    pub magnitude_sum: f64,
}

// The score and T, each divided by 2^shift. A size of at most 2^53 is a binary64, and dividing it by a power of two moves only its
// exponent, so nothing is rounded.
pub fn scale(score: i64, magnitude_sum: u64, shift: u32) -> Result<Quotients, Refusal>
    ensures outcome { scaled_given result ≡ scaled_outcome score magnitude_sum shift }
    ensures exact { BothExact score magnitude_sum shift (scaled_given result) }
{
    if shift > LARGEST_SHIFT {
        return Err(Refusal::ShiftTooLarge);
    }
    if score.unsigned_abs() > LARGEST_SIZE || magnitude_sum > LARGEST_SIZE {
        return Err(Refusal::SizeTooLarge);
    }
    let power = (1u64 << shift) as f64;
    let score = (score as f64) / power;
    let magnitude_sum = (magnitude_sum as f64) / power;
    Ok(Quotients {
        score,
        magnitude_sum,
    })
}
