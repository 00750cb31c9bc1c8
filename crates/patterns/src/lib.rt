// One path for a pair of 16-bit numbers: the residue of each design, for every pair, with no branch in the compiled code that depends
// on the numbers. A binary32 pattern is a logarithm code above a sign, so the machine's casts take logarithms and powers.
#![tactic(auto)]

mod logs;
pub mod methods;
mod powers;
mod raising;
mod sizes;
mod stages;
mod truncation;
mod twice;

pub use powers::offset_of;
pub use raising::{carried, kept, lead, near, raised, raised_offset};
pub use stages::pairs_left;
pub use twice::{fraction_of, left_of, room_of};
