// Rows of a weight store (docs/SCOPE.md, "Finding a row in a weight store"), in which each row is followed by the next and all have the
// same number of columns. A part of memory cannot say a refusal, so there are two operations for a row: one says whether there is such a
// row, and the other gives it. All take any store and any numbers.
#![tactic(auto)]

ghost use Rattle.std.specs.Prelude.{◌≡◌, length};
ghost use Rattle.designs.specs.Outcomes.{first};
ghost use Rattle.refusals.specs.Refusals.{refused_by};
ghost use Rattle.stores.specs.Stores.{shape_refusals, store_refusal};
ghost use Rattle.stores.specs.Parts.{RowPart};

use refusals::Refusal;

// The most columns that a row has.
pub const MOST_COLUMNS: usize = 4096;

// A store is judged by its length and its columns.
pub fn shape_refusal(length: usize, columns: usize) -> Result<(), Refusal>
    ensures { refused_by result ≡ first (shape_refusals length columns) }
{
    if columns == 0 {
        return Err(Refusal::ColumnsOutOfRange);
    }
    if columns > MOST_COLUMNS {
        return Err(Refusal::ColumnsOutOfRange);
    }
    if length % columns != 0 {
        return Err(Refusal::UnevenStore);
    }
    Ok(())
}

// And a row by its store and its number.
pub fn row_refusal(store: &[i16], columns: usize, row: usize) -> Result<(), Refusal>
    ensures { refused_by result ≡ store_refusal (length store.now) columns row }
{
    shape_refusal(store.len(), columns)?;
    if row >= store.len() / columns {
        return Err(Refusal::NoSuchRow);
    }
    Ok(())
}

// The row, as the part of the store where it lies; an empty part where, and only where, `row_refusal` refuses.
pub fn row_part(store: &[i16], columns: usize, row: usize) -> &[i16]
    ensures { RowPart store.entry result columns row }
{
    if row_refusal(store, columns, row).is_err() {
        return &store[0..0];
    }
    let start = row * columns;
    let end = start + columns;
    let view = &store[start..end];
    view
}
