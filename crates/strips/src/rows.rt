// A strip of the frame against all rows: the sums so far stand in the places for the scores.
ghost use Rattle.std.specs.Prelude.{◌≡◌, ◌+◌, ◌≤◌, length, min};
ghost use Rattle.strips.specs.Strips.{Room, started, Stripped};

use crate::by_codes::ByCodes;

// The place n ahead, or the end.
pub fn ahead(at: usize, n: usize, end: usize) -> usize
    ensures { result ≡ min (at + n) end }
{
    if end <= at {
        return end;
    }
    at + pairs::fewer(n, end - at)
}

// What a place counts for, where `from` columns are done. That of a stage is of another type; a generic one would have to say of any type what
// its 0 is.
pub fn so_far(from: usize, score: i64) -> i64
    ensures { result ≡ started from score }
{
    if from == 0 {
        return 0;
    }
    score
}

// Each row takes the strip that begins at column `from`. Where a place has no room for its sum, that wraps.
pub(crate) fn take<D: ByCodes>(
    design: D,
    columns: usize,
    from: usize,
    weights: &[i16],
    part: &[i16],
    codes: &D::Codes,
    scores: &mut [i64],
)
    requires { D.coded design part.now codes.now × (length part.now ≤ 64) }
    ensures { Room from scores.old → Stripped (D.design design) columns from weights.now part.now scores.old scores.new }
{
    let mut at = 0;
    for score in scores.iter_mut() {
        let start = ahead(at, from, weights.len());
        let before = so_far(from, *score);
        *score = before.wrapping_add(design.sum(&weights[start..], part, codes));
        at = ahead(at, columns, weights.len());
    }
}
