// The refusals of a row: by its design and setting, by its pairs, and by the places for its residues.
ghost use Rattle.designs.specs.Scoring.{design_refusals, row_refusals};
ghost use Rattle.refusals.specs.Methods.{Judged};

use crate::methods::method_of;
use crate::{Method, Refusal};

// The width at which a row is scored, and the most pairs that it may have.
const ROW_WIDTH: u32 = 16;

const MOST_PAIRS: usize = 4096;

// A row is judged by its design and its setting.
pub fn of_design(design: u32, setting: u32) -> Result<Method, Refusal>
    ensures { Judged (design_refusals design setting) design setting result }
{
    let known = crate::is_design(design);
    let in_range = crate::takes_setting(design, ROW_WIDTH, setting);
    if !known {
        return Err(Refusal::UnknownDesign);
    }
    if !in_range {
        return Err(Refusal::SettingOutOfRange);
    }
    Ok(method_of(design, setting))
}

// And where it is to be scored into so many places, by these and by its lengths.
pub fn of_row(
    design: u32,
    setting: u32,
    weights: usize,
    frame: usize,
    places: usize,
) -> Result<Method, Refusal>
    ensures { Judged (row_refusals design setting weights frame places) design setting result }
{
    let method = of_design(design, setting)?;
    if weights != frame {
        return Err(Refusal::LengthsDiffer);
    }
    if MOST_PAIRS < weights {
        return Err(Refusal::TooManyPairs);
    }
    if places < weights {
        return Err(Refusal::ResiduesTooShort);
    }
    Ok(method)
}
