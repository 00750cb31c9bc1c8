// The codes of a part and its sum with a row, each asked for by itself. Nothing else in this crate asks for them so.
use crate::{Codes, ManyStages};
use strips::InStrips;

const ROW: [i16; 5] = [3, -2, 7, 100, -32768];

const PART: [i16; 5] = [3, 5, 7, -77, 21];

// The sum with the codes of the part, and with those of another.
fn sums(stages: u32) -> (i64, i64) {
    let design = ManyStages { stages };
    let mut codes = Codes::default();
    design.code(&PART, &mut codes);
    let by_own = design.sum(&ROW, &PART, &mut codes);
    design.code(&ROW, &mut codes);
    (by_own, design.sum(&ROW, &PART, &mut codes))
}

// No number of the row has more than three ones, so four stages leave nothing.
#[test]
fn four_stages_and_more_sum(rt: HostRuntime) {
    for stages in [0, 4, 9, 16] {
        assert_eq!(rt; sums(stages), (-695780, -695780), "{stages} stages");
    }
}
