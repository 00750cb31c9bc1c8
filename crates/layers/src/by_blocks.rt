// All rows of a layer in blocks of 16, the last with the rows that are left. A block takes each number of the frame once for all its rows.
ghost use Rattle.designs.specs.Designs.{staged};
ghost use Rattle.refusals.specs.Methods.{meant};
ghost use Rattle.strips.specs.Stages.{stages_of};
ghost use Rattle.layers.specs.Blocks.{Framed, Ranged, Rowed};

use many_stages::ManyStages;
use patterns::methods::{Mitchell, Nearest, Staged, Truncated, TwiceTruncated};
use refusals::Method;
use strips::InStrips;

// The most rows of a block.
const ROWS: usize = 16;

// From how many stages on the second way of design 3 is the quicker one: where a layer has so many rows, and whatever it has.
const SOME_STAGES: u32 = 4;

const SOME_ROWS: usize = 5;

const MANY_STAGES: u32 = 8;

fn by<S: InStrips>(design: S, store: &[i16], frame: &[i16], scores: &mut [i64])
    requires { Framed frame.now }
    ensures { Rowed (S.design design) store.now frame.now scores.old scores.new }
{
    let mut start = 0;
    for block in 0..scores.len().div_ceil(ROWS) {
        let first = block * ROWS;
        let last = strips::ahead(first, ROWS, scores.len());
        let weights = &store[start..];
        strips::score(design, weights, frame, &mut scores[first..last]);
        start = strips::ahead(start, ROWS * frame.len(), store.len());
    }
}

// By design 3. For many stages the numbers of the frame take longer to work out, which pays only where enough rows take them.
fn staged(stages: u32, store: &[i16], frame: &[i16], scores: &mut [i64])
    requires { Framed frame.now }
    ensures { Rowed (staged (stages_of stages)) store.now frame.now scores.old scores.new }
{
    if stages < SOME_STAGES || (stages < MANY_STAGES && scores.len() < SOME_ROWS) {
        by(Staged { stages }, store, frame, scores);
    } else {
        by(ManyStages { stages }, store, frame, scores);
    }
}

pub(crate) fn by_method(method: Method, store: &[i16], frame: &[i16], scores: &mut [i64])
    requires { Framed frame.now × Ranged (meant method) }
    ensures { Rowed (meant method) store.now frame.now scores.old scores.new }
{
    match method {
        Method::Mitchell => by(Mitchell, store, frame, scores),
        Method::Nearest => by(Nearest, store, frame, scores),
        Method::Staged { stages } => staged(stages, store, frame, scores),
        Method::Truncated { kept_bits } => by(Truncated { kept_bits }, store, frame, scores),
        Method::TwiceTruncated { kept_bits } => {
            by(TwiceTruncated { kept_bits }, store, frame, scores)
        }
    }
}
