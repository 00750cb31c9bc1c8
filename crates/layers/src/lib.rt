// Scoring a layer (docs/SCOPE.md, "Scoring a layer"): all rows of a weight store against one frame. Nothing is multiplied, and there are no
// reports: of each row its score is written, which is that of the row scored alone.
#![tactic(auto)]

ghost use Rattle.layers.specs.Answers.{Layering};
ghost use Rattle.layers.specs.Layers.{layer_refusals};
ghost use Rattle.refusals.specs.Methods.{Judged};

use refusals::{Method, Refusal};

mod by_blocks;

// The design of a layer that is to be scored into so many places.
fn judged(
    design: u32,
    setting: u32,
    length: usize,
    columns: usize,
    frame: usize,
    places: usize,
) -> Result<Method, Refusal>
    ensures { Judged (layer_refusals design setting length columns frame places) design setting result }
{
    let method = refusals::of_design(design, setting)?;
    stores::shape_refusal(length, columns)?;
    if columns != frame {
        return Err(Refusal::LengthsDiffer);
    }
    if places < length / columns {
        return Err(Refusal::ScoresTooShort);
    }
    Ok(method)
}

// Scores all rows of a store by the design that is asked for, and hands back how many there are. Place r of `scores` gets the score of row r,
// and later places stay as they were; a refused layer leaves every place as it was.
pub fn score_layer(
    design: u32,
    setting: u32,
    store: &[i16],
    columns: usize,
    frame: &[i16],
    scores: &mut [i64],
) -> Result<usize, Refusal>
    ensures { Layering design setting store.now columns frame.now scores.old scores.new result }
{
    let method = judged(
        design,
        setting,
        store.len(),
        columns,
        frame.len(),
        scores.len(),
    )?;
    let rows = store.len() / columns;
    by_blocks::by_method(method, store, frame, &mut scores[..rows]);
    Ok(rows)
}
