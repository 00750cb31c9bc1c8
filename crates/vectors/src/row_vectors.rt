// Vectors of rows, DESIGN SETTING WEIGHTS FRAME PLACES REFUSAL SCORE TRUE ERROR T N LARGEST PLACE RESIDUES after the kind `r`. WEIGHTS, FRAME
// and RESIDUES are lists, each a length and so many numbers. PLACES is the length of the residue slice. The row by the design is due, and,
// if there is such a design, the design's row by itself.
use crate::answers::{MARK, are_written, is_due};
use crate::fields::{Fields, LONGEST};
use refusals::Refusal;
use rows::RowReport;

pub fn is_row(fields: &mut Fields) -> Option<bool> {
    let design = fields.number()?;
    let setting = fields.number()?;
    let mut weights = [0; LONGEST];
    let weights = fields.list(&mut weights)?;
    let mut frame = [0; LONGEST];
    let frame = fields.list(&mut frame)?;
    let count = fields.length()?;
    let mut places = [MARK; LONGEST];
    let mut again = [MARK; LONGEST];
    let given = rows::score_row(design, setting, weights, frame, &mut places[..count]);
    let by_itself = score_by_itself(design, setting, weights, frame, &mut again[..count]);
    let (refusal, report) = answer(fields)?;
    let written = fields.natural()?;
    let is_same = by_itself == given && again == places;
    let given = given.map(|report| (report, weights.len()));
    let is_due = is_due(given, refusal, (report, written));
    Some(is_same && is_due && are_written(&places, written, fields)?)
}

// The row of a design by itself, by the number that a line has; a number that is no design has none.
fn score_by_itself(
    design: u32,
    setting: u32,
    weights: &[i16],
    frame: &[i16],
    residues: &mut [i64],
) -> Result<RowReport, Refusal> {
    match design {
        1 => rows::score_row_mitchell(setting, weights, frame, residues),
        2 => rows::score_row_nearest(setting, weights, frame, residues),
        3 => rows::score_row_staged(setting, weights, frame, residues),
        4 => rows::score_row_truncated(setting, weights, frame, residues),
        5 => rows::score_row_twice_truncated(setting, weights, frame, residues),
        _ => Err(Refusal::UnknownDesign),
    }
}

// The refusal, and the report.
pub fn answer(fields: &mut Fields) -> Option<(u64, RowReport)> {
    let refusal = fields.natural()?;
    let report = RowReport {
        score: fields.number()?,
        true_sum: fields.number()?,
        error: fields.number()?,
        magnitude_sum: fields.natural()?,
        nonzero_pairs: fields.natural()?,
        largest_residue: fields.natural()?,
        largest_place: fields.natural()?,
    };
    Some((refusal, report))
}
