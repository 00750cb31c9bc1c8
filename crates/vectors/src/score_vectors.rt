// Vectors of scores that are handed out, SCORE T SHIFT REFUSAL SCOREBITS TBITS after the kind `h`. Where the refusal is 0 both
// patterns are due, and otherwise that very refusal, and 0 in their place.
use crate::answers::is_due;
use crate::fields::Fields;

pub fn is_score(fields: &mut Fields) -> Option<bool> {
    let given = match scaling::scale(fields.number()?, fields.number()?, fields.number()?) {
        Ok(values) => Ok((pattern(values.score)?, pattern(values.magnitude_sum)?)),
        Err(refusal) => Err(refusal),
    };
    let refusal = fields.number()?;
    let patterns = (fields.number()?, fields.number()?);
    Some(is_due(given, refusal, patterns))
}

// By patterns −0 differs from +0. A NaN, which has many, is never due.
fn pattern(value: f64) -> Option<u64> {
    if value.is_nan() {
        return None;
    }
    Some(value.to_bits())
}
