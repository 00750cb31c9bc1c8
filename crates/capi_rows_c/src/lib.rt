// The rows of the designs by themselves, under the names by which C calls them. It is a file of the archive by itself, and goes into no program
// that scores no row by one design.
#![tactic(auto)]

ghost use Rattle.capi_rows.specs.Rows.{RowStruct};

use capi_rows::ScoredRow;

#[unsafe(no_mangle)]
pub extern "C" fn highvane_score_row_mitchell(
    setting: u32,
    weights: &[i16],
    frame: &[i16],
    residues: &mut [i64],
) -> ScoredRow
    ensures { RowStruct 1 setting weights.now frame.now residues.old residues.new result }
{
    capi_rows::highvane_score_row_mitchell(setting, weights, frame, residues)
}

#[unsafe(no_mangle)]
pub extern "C" fn highvane_score_row_nearest(
    setting: u32,
    weights: &[i16],
    frame: &[i16],
    residues: &mut [i64],
) -> ScoredRow
    ensures { RowStruct 2 setting weights.now frame.now residues.old residues.new result }
{
    capi_rows::highvane_score_row_nearest(setting, weights, frame, residues)
}

#[unsafe(no_mangle)]
pub extern "C" fn highvane_score_row_staged(
    setting: u32,
    weights: &[i16],
    frame: &[i16],
    residues: &mut [i64],
) -> ScoredRow
    ensures { RowStruct 3 setting weights.now frame.now residues.old residues.new result }
{
    capi_rows::highvane_score_row_staged(setting, weights, frame, residues)
}

#[unsafe(no_mangle)]
pub extern "C" fn highvane_score_row_truncated(
    setting: u32,
    weights: &[i16],
    frame: &[i16],
    residues: &mut [i64],
) -> ScoredRow
    ensures { RowStruct 4 setting weights.now frame.now residues.old residues.new result }
{
    capi_rows::highvane_score_row_truncated(setting, weights, frame, residues)
}

#[unsafe(no_mangle)]
pub extern "C" fn highvane_score_row_twice_truncated(
    setting: u32,
    weights: &[i16],
    frame: &[i16],
    residues: &mut [i64],
) -> ScoredRow
    ensures { RowStruct 5 setting weights.now frame.now residues.old residues.new result }
{
    capi_rows::highvane_score_row_twice_truncated(setting, weights, frame, residues)
}
