// What a line says is due.
use crate::fields::{Fields, LONGEST};
use refusals::Refusal;

// What each place of a slice that is written holds before the call. No residue and no score is so large.
pub const MARK: i64 = 10000000000000;

// Whether a call gives what is due: where the refusal is 0 these values, and otherwise that very refusal, and zeros in their place.
pub fn is_due<T: PartialEq + Default + Drop>(
    given: Result<T, Refusal>,
    refusal: u64,
    values: T,
) -> bool {
    match given {
        Ok(given) => refusal == 0 && given == values,
        Err(given) => u64::from(u32::from(given)) == refusal && values == T::default(),
    }
}

// Whether the first places hold the residues or the scores that end an answer, so many, and the later ones their mark.
pub fn are_written(places: &[i64; LONGEST], count: usize, fields: &mut Fields) -> Option<bool> {
    let (written, rest) = places.split_at_checked(count)?;
    for place in written {
        if fields.number::<i64>()? != *place {
            return Some(false);
        }
    }
    Some(rest.iter().all(|place| *place == MARK))
}
