// The codes of a part and its sum with a row, each asked for by itself. Nothing else in this crate asks for them so.
use crate::InStrips;
use patterns::methods::{Mitchell, Nearest, Staged, Truncated, TwiceTruncated};

const ROW: [i16; 5] = [3, -2, 7, 100, -32768];

const PART: [i16; 5] = [3, 5, 7, -77, 21];

// The sum with the codes of the part, and with those of another.
fn sums<S: InStrips>(design: S) -> (i64, i64) {
    let mut codes = S::Codes::default();
    design.code(&PART, &mut codes);
    let by_own = design.sum(&ROW, &PART, &mut codes);
    design.code(&ROW, &mut codes);
    (by_own, design.sum(&ROW, &PART, &mut codes))
}

#[test]
fn each_design_sums(rt: HostRuntime) {
    assert_eq!(rt; sums(Mitchell), (-695314, -695314));
    assert_eq!(rt; sums(Nearest), (-696146, -696146));
    assert_eq!(rt; sums(Staged { stages: 2 }), (-695761, -695761));
    assert_eq!(rt; sums(Truncated { kept_bits: 3 }), (-728014, -728014));
    assert_eq!(rt; sums(TwiceTruncated { kept_bits: 3 }), (-728462, -728462));
}
