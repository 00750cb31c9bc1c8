// Rows that are scored together against one frame, as a layer takes them in blocks. The frame goes in strips: each number of a strip is read
// once and made into codes, its logarithm among them, and then every row takes the strip. Nothing is multiplied. Any slices are taken: the
// rows are as many as there are places for scores, each as long as the frame, and of the frame the first 4,096 numbers count.
#![tactic(auto)]

ghost use Rattle.std.specs.Prelude.{◌≡◌, ℕ, ◌<◌, ◌≤◌, List, length, ℤ};
ghost use Rattle.designs.specs.Designs.{Design};
ghost use Rattle.strips.specs.Strips.{Room, Scored, Stripped, Summed};

mod by_codes;
mod by_pairs;
mod codes;
mod count;
mod products;
mod rows;
mod stages;
mod sums;
#[cfg(test)]
mod tests;

pub use rows::{ahead, so_far};

// The most numbers of a strip, and of a frame.
pub const STRIP: usize = 64;

pub const MOST: usize = 4096;

// What a place of the codes holds before it is filled. The bytes of this number differ: equal ones, as those of 0 are, the compiler would set
// by one call of memset more.
pub(crate) const UNSET: u32 = 66051;

// A design with its setting, as it takes a strip of the frame.
pub trait InStrips: Copy {
    // What the numbers of a strip become. By default the places are not filled.
    type Codes: Default + Drop;

    // The most of them.
    const NUMBERS: usize;

    ghost NUMBERS: { ℕ };

    ghost design: { Self → Design };

    // these are the codes of a part of a frame; by default any are
    ghost coded: { Self → List ℤ → Self.Codes → Type 0 } = { λ d part c. Unit {0} };

    // A part of a frame against all rows, where the columns before `from` are done: it becomes codes, whatever they were before, and then each
    // row takes it. Of a longer part the first numbers count, and a sum that fits no place wraps.
    fn take(
        self,
        columns: usize,
        from: usize,
        weights: &[i16],
        part: &[i16],
        codes: &mut Self::Codes,
        scores: &mut [i64],
    )
        ensures scores { length part.now ≤ NUMBERS → Room from scores.old → Stripped (design self) columns from weights.now part.now scores.old scores.new }
        ensures codes { length part.now ≤ NUMBERS → coded self part.now codes.new };

    // The codes of a part by themselves: no row takes them.
    fn code(self, part: &[i16], codes: &mut Self::Codes)
        ensures { length part.now ≤ NUMBERS → coded self part.now codes.new }
    {
        let mut none: [i64; 0] = [];
        self.take(0, 0, &[], part, codes, &mut none[..]);
    }

    // The sum of the products of a row and a part, by one row that takes it. The codes are made anew, so nothing is asked of what they were.
    fn sum(self, row: &[i16], part: &[i16], codes: &mut Self::Codes) -> i64
        ensures sum { length part.now ≤ NUMBERS → Summed (design self) row.now part.now result }
        ensures codes { length part.now ≤ NUMBERS → coded self part.now codes.new }
    {
        let mut scores = [0];
        self.take(row.len(), 0, row, part, codes, &mut scores[..]);
        scores[0]
    }

    ghost some: { 0 < NUMBERS };

    ghost few: { NUMBERS ≤ 4096 };
}

// The scores of as many rows as there are places.
pub fn score<S: InStrips>(design: S, weights: &[i16], frame: &[i16], scores: &mut [i64])
    ensures { Scored (S.design design) weights.now frame.now scores.old scores.new }
{
    let columns = frame.len();
    let counted = &frame[..pairs::fewer(columns, MOST)];
    let mut codes = S::Codes::default();
    let mut from = 0;
    for part in counted.chunks(S::NUMBERS) {
        design.take(columns, from, weights, part, &mut codes, scores);
        from += part.len();
    }
}
