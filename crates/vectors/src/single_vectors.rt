// Vectors of single products, A B REFUSAL BITS after the kind `f`. Where the refusal is 0 the pattern is due, and otherwise that very
// refusal, and 0 in the pattern's place.
use crate::answers::is_due;
use crate::fields::Fields;

pub fn is_single(fields: &mut Fields) -> Option<bool> {
    let given = singles::bits(singles::single_product(fields.number()?, fields.number()?));
    Some(is_due(given, fields.number()?, fields.number()?))
}
