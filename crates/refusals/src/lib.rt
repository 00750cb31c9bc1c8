// The refusals of docs/SCOPE.md, each with its number, the designs that calls may ask for, and the tests that products and rows share, in
// their order.
#![tactic(auto)]

ghost use Rattle.std.specs.Prelude.{◌≡◌};
ghost use Rattle.refusals.specs.Refusals.{number};

mod methods;
mod products;
mod rows;

pub use methods::Method;
pub use products::{is_design, is_width, of_operands, of_setting, takes_setting};
pub use rows::{of_design, of_row};

// Why a call is refused. The number of each stands beside it; the C header has it under the same name in capitals.
#[derive(Clone, Copy, Debug, PartialEq, Eq)]
pub enum Refusal {
    // Products; a row has the first and the third of these too.
    UnknownDesign = 1,
    UnknownWidth = 2,
    SettingOutOfRange = 3,
    FirstOperandOutsideWidth = 4,
    // Rows.
    LengthsDiffer = 5,
    TooManyPairs = 6,
    ResiduesTooShort = 7,
    // Single products.
    NotFinite = 8,
    Subnormal = 9,
    ExponentTooLarge = 10,
    ExponentTooSmall = 11,
    // Weight stores.
    ColumnsOutOfRange = 12,
    UnevenStore = 13,
    NoSuchRow = 14,
    // Scores that are handed out.
    ShiftTooLarge = 15,
    SizeTooLarge = 16,
    // Records.
    UnknownKind = 17,
    CutShort = 18,
    InputTooLong = 19,
    // Products again.
    SecondOperandOutsideWidth = 20,
    // Layers.
    ScoresTooShort = 21,
}

impl From<Refusal> for u32 {
    ghost from_gives = { λ r n. n ≡ number r };

    fn from(refusal: Refusal) -> u32 {
        refusal as u32
    }
}
