// The figures of docs/SCOPE.md, "Figures to hold the designs to", that have no star, and what the sentences under the table say, as
// lines like those of the vectors. Two kinds are of the figures alone:
// q DESIGN WIDTH SETTING A REFUSAL PRODUCT RESIDUE: the product of A and A, and the residue that it leaves of the true product.
// n PAIRS REFUSAL SCORE TRUE ERROR T N LARGEST PLACE RESIDUES: so many pairs (1, 1) by design 1, and of the residues only how many they are.
use crate::answers::is_due;
use crate::fields::{Fields, LONGEST};
use crate::lines;
use crate::row_vectors::answer;
use crate::tally::Tally;

// In their order: the table's rows; that design 3 at width 8 takes 8 stages, and neither 0 nor 9; that design 5 there keeps 7 bits, and
// neither 0 nor 8, and that 6 is no design; that width 8 takes −128, and which of two operands it does not take, 128 signed or 256
// unsigned, also beside a wrong setting; the limits of width 12, and the numbers beside it that are no widths; the starred row, a row with two
// largest residues and one whose residues are 0; the layer; that 4,096 pairs are scored, and 4,097 not; that −20 over 2^3 is handed out as
// −2.5, and T 39 then as 4.875; the singles.
pub fn run() -> Tally {
    lines::all(
        b"q 1 8 0 255 0 65024 1
q 1 12 0 4095 0 16769024 1
s 1 12 0 -2048 -2048 0 4194304
q 2 32 0 4294967295 0 18446744065119617024 1
q 3 12 12 4095 0 16769025 0
q 4 8 4 255 0 63488 1537
q 4 8 1 1 0 1 0
q 4 12 11 3 0 8 1
u 3 8 8 7 7 0 49
u 3 8 0 7 7 3 0
u 3 8 9 7 7 3 0
u 5 8 7 7 7 0 48
u 5 8 0 7 7 3 0
u 5 8 8 7 7 3 0
u 6 8 4 7 7 1 0
s 1 8 0 -128 1 0 -128
s 1 8 0 128 5 4 0
s 1 8 0 5 128 20 0
s 1 8 0 128 128 4 0
u 1 8 0 256 5 4 0
u 1 8 0 5 256 20 0
u 1 8 0 256 256 4 0
s 1 8 1 128 5 3 0
s 1 8 1 5 128 3 0
s 1 8 1 128 128 3 0
u 1 8 1 256 5 3 0
u 1 8 1 5 256 3 0
u 1 8 1 256 256 3 0
u 3 12 13 7 7 3 0
s 3 12 13 7 7 3 0
u 4 12 12 7 7 3 0
s 4 12 12 7 7 3 0
u 5 12 12 7 7 3 0
s 5 12 12 7 7 3 0
u 1 12 0 4096 5 4 0
u 1 12 0 5 4096 20 0
s 1 12 0 2047 -2048 0 -4192256
s 1 12 0 2048 5 4 0
s 1 12 0 5 2048 20 0
s 1 12 0 -2049 5 4 0
s 1 12 0 5 -2049 20 0
u 1 10 0 5 6 2 0
u 1 11 0 5 6 2 0
u 1 13 0 5 6 2 0
r 1 0 3 3 -5 0 3 3 6 7 3 0 -20 -21 -1 39 2 2 1 3 1 -2 0
r 1 0 4 3 -5 5 3 4 3 6 6 3 4 0 16 18 2 78 4 2 1 4 1 -2 2 1
r 1 0 2 0 1 2 7 4 2 0 4 4 0 4 1 0 0 2 0 0
l 1 0 2 6 6 3 -5 0 7 5 6 2 2 3 6 3 0 3 -20 40 46
n 4096 0 4096 4096 0 4096 4096 0 0 4096
n 4097 6 0 0 0 0 0 0 0 0
h -20 39 3 0 13836183955189006336 4617174780473245696
f 1067450368 1067450368 0 1069547520
f 12582912 1061158912 0 8388608
f 8388608 1056964608 11 0
f 2130706432 1073741824 10 0
",
    )
}

pub fn is_square(fields: &mut Fields) -> Option<bool> {
    let design = fields.number()?;
    let width = fields.number()?;
    let setting = fields.number()?;
    let a = u64::from(fields.number::<u32>()?);
    let given = products::unsigned_product(design, width, setting, a, a);
    let refusal = fields.number()?;
    let product: u64 = fields.number()?;
    let residue: u64 = fields.number()?;
    Some(is_due(given, refusal, product) && a * a == product.wrapping_add(residue))
}

pub fn is_row_of_ones(fields: &mut Fields) -> Option<bool> {
    let ones = [1i16; LONGEST];
    let ones = &ones[..fields.length()?];
    let mut residues = [0i64; LONGEST];
    let given = rows::score_row(1, 0, ones, ones, &mut residues);
    let (refusal, report) = answer(fields)?;
    let count: usize = fields.number()?;
    let given = given.map(|report| (report, ones.len()));
    Some(is_due(given, refusal, (report, count)))
}
