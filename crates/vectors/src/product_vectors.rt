// Vectors of products, DESIGN WIDTH SETTING A B REFUSAL PRODUCT after the kind: `u` for unsigned ones, `s` for signed ones. Where
// the refusal is 0 the product is due, and otherwise that very refusal, and 0 in the product's place.
use crate::answers::is_due;
use crate::fields::Fields;

pub fn is_unsigned(fields: &mut Fields) -> Option<bool> {
    let given = products::unsigned_product(
        fields.number()?,
        fields.number()?,
        fields.number()?,
        fields.number()?,
        fields.number()?,
    );
    Some(is_due(given, fields.number()?, fields.number()?))
}

// Beside the unsigned ones: the numbers of their fields are read at other types, which the calls say.
pub fn is_signed(fields: &mut Fields) -> Option<bool> {
    let given = products::signed_product(
        fields.number()?,
        fields.number()?,
        fields.number()?,
        fields.number()?,
        fields.number()?,
    );
    Some(is_due(given, fields.natural()?, fields.number()?))
}
