// The rows of the designs by themselves, laid out for C, as the row by any design is too. The crate capi_rows_c exports them, and the crate
// capi that one: so they are in different files of the archive, since each is fastest where the compiler takes its row into it.
#![tactic(auto)]

ghost use Rattle.capi_rows.specs.Rows.{RowLaidBy, RowStruct};

// The report stands first, as it is, so that its fields are the struct's own.
#[repr(C)]
#[derive(Clone, Copy)]
pub struct ScoredRow {
    pub report: rows::RowReport,
    pub refusal: u32,
}

// An answer of a row, laid out for C. Whatever a refusal is told by becomes its number, and so a number itself is taken too.
pub fn laid<E: Into<u32>>(answer: Result<rows::RowReport, E>) -> ScoredRow
    ensures { RowLaidBy (λ e n. E.converts e n) answer result }
{
    match answer {
        Ok(report) => ScoredRow { report, refusal: 0 },
        Err(refusal) => ScoredRow {
            report: rows::RowReport::empty(),
            refusal: refusal.into(),
        },
    }
}

pub fn highvane_score_row_mitchell(
    setting: u32,
    weights: &[i16],
    frame: &[i16],
    residues: &mut [i64],
) -> ScoredRow
    ensures { RowStruct 1 setting weights.now frame.now residues.old residues.new result }
{
    laid(rows::score_row_mitchell(setting, weights, frame, residues))
}

pub fn highvane_score_row_nearest(
    setting: u32,
    weights: &[i16],
    frame: &[i16],
    residues: &mut [i64],
) -> ScoredRow
    ensures { RowStruct 2 setting weights.now frame.now residues.old residues.new result }
{
    laid(rows::score_row_nearest(setting, weights, frame, residues))
}

pub fn highvane_score_row_staged(
    setting: u32,
    weights: &[i16],
    frame: &[i16],
    residues: &mut [i64],
) -> ScoredRow
    ensures { RowStruct 3 setting weights.now frame.now residues.old residues.new result }
{
    laid(rows::score_row_staged(setting, weights, frame, residues))
}

pub fn highvane_score_row_truncated(
    setting: u32,
    weights: &[i16],
    frame: &[i16],
    residues: &mut [i64],
) -> ScoredRow
    ensures { RowStruct 4 setting weights.now frame.now residues.old residues.new result }
{
    laid(rows::score_row_truncated(setting, weights, frame, residues))
}

pub fn highvane_score_row_twice_truncated(
    setting: u32,
    weights: &[i16],
    frame: &[i16],
    residues: &mut [i64],
) -> ScoredRow
    ensures { RowStruct 5 setting weights.now frame.now residues.old residues.new result }
{
    laid(rows::score_row_twice_truncated(setting, weights, frame, residues))
}
