// Vectors of weight stores, LENGTH COLUMNS ROW REFUSAL START COUNT after the kind `t`. Where the refusal is 0 that part of the store
// is due, and otherwise that very refusal, an empty part, and 0 for its start.
use crate::answers::is_due;
use crate::fields::Fields;

// The most that a store has.
const LARGEST: usize = 8192;

pub fn is_part(fields: &mut Fields) -> Option<bool> {
    let length: usize = fields.number()?;
    // An element is the number of its place, so that a part tells where it starts.
    let mut store = [0; LARGEST];
    for (element, place) in store.iter_mut().zip(0..LARGEST as i16) {
        *element = place;
    }
    let store = store.get(..length)?;
    let (columns, row) = (fields.number()?, fields.number()?);
    let part = stores::row_part(store, columns, row);
    let refused = stores::row_refusal(store, columns, row);
    let refusal = fields.number()?;
    let start: usize = fields.number()?;
    let count = fields.number()?;
    let due = store.get(start..)?.get(..count)?;
    let given = refused.map(|()| (start, part));
    Some(part == due && is_due(given, refusal, (start, due)))
}
