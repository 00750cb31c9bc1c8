// Vectors of layers, DESIGN SETTING COLUMNS STORE FRAME PLACES REFUSAL SCORES after the kind `l`. STORE and FRAME are repeated lists, each a
// length and a list, whose numbers come again and again up to that length. PLACES is the length of the score slice. SCORES is a list, as
// long as there are rows.
use crate::answers::{MARK, are_written, is_due};
use crate::fields::{Fields, LONGEST};

pub fn is_layer(fields: &mut Fields) -> Option<bool> {
    let design = fields.number()?;
    let setting = fields.number()?;
    let columns = fields.number()?;
    let mut store = [0; LONGEST];
    let store = repeated(fields, &mut store)?;
    let mut frame = [0; LONGEST];
    let frame = repeated(fields, &mut frame)?;
    let count = fields.places()?;
    let mut places = [MARK; LONGEST];
    let given = layers::score_layer(design, setting, store, columns, frame, &mut places[..count]);
    let refusal = fields.natural()?;
    let written = fields.natural()?;
    Some(is_due(given, refusal, written) && are_written(&places, written, fields)?)
}

// What is repeated is as long as the list at least, and the list is empty only where nothing is repeated.
fn repeated<'a>(fields: &mut Fields, places: &'a mut [i16; LONGEST]) -> Option<&'a [i16]> {
    let length = fields.length()?;
    let count = fields.list(places)?.len();
    if count > length || (count == 0 && length > 0) {
        return None;
    }
    for i in count..length {
        places[i] = places[i - count];
    }
    places.get(..length)
}
