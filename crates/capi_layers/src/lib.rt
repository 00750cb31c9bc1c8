// The layer, for C, as `include/highvane.h` declares it. It is a crate by itself, and so a file of the archive by itself, which leaves the others as
// they are and goes into no program that scores no layer.
#![tactic(auto)]

ghost use Rattle.capi_layers.specs.Layers.{LayerStruct};

#[repr(C)]
#[derive(Clone, Copy)]
pub struct ScoredLayer {
    pub rows: usize,
    pub refusal: u32,
}

#[unsafe(no_mangle)]
pub extern "C" fn highvane_score_layer(
    design: u32,
    setting: u32,
    store: &[i16],
    columns: usize,
    frame: &[i16],
    scores: &mut [i64],
) -> ScoredLayer
    ensures { LayerStruct design setting store.now columns frame.now scores.old scores.new result }
{
    let answer = layers::score_layer(design, setting, store, columns, frame, scores);
    match answer {
        Ok(rows) => ScoredLayer { rows, refusal: 0 },
        Err(refusal) => ScoredLayer {
            rows: 0,
            refusal: u32::from(refusal),
        },
    }
}
