// The refusals of a product: by its design, its width and its setting, and by its operands.
ghost use Rattle.std.specs.Prelude.{◌≡◌};
ghost use Rattle.designs.specs.Outcomes.{first};
ghost use Rattle.designs.specs.Products.{is_design, is_width, takes_setting, setting_refusals, operand_refusals};
ghost use Rattle.refusals.specs.Methods.{Judged};
ghost use Rattle.refusals.specs.Refusals.{refused_by};

use crate::methods::method_of;
use crate::{Method, Refusal};

// The widths, each a bit at its place.
const WIDTHS: u64 = (1 << 8) | (1 << 12) | (1 << 16) | (1 << 32);

pub fn is_design(design: u32) -> bool
    ensures { result ≡ is_design design }
{
    if design < 1 {
        return false;
    }
    design <= 5
}

pub fn is_width(width: u32) -> bool
    ensures { result ≡ is_width width }
{
    if 64 <= width {
        return false;
    }
    (WIDTHS >> width) & 1 == 1
}

// Whether a design takes a setting at a width.
pub fn takes_setting(design: u32, width: u32, setting: u32) -> bool
    ensures { result ≡ takes_setting design width setting }
{
    if design <= 2 {
        return setting == 0;
    }
    if setting < 1 {
        return false;
    }
    if design == 3 {
        return setting <= width;
    }
    setting < width
}

// A product is judged by its design, its width and its setting.
pub fn of_setting(design: u32, width: u32, setting: u32) -> Result<Method, Refusal>
    ensures { Judged (setting_refusals design width setting) design setting result }
{
    let known = is_design(design);
    let listed = is_width(width);
    let in_range = takes_setting(design, width, setting);
    if !known {
        return Err(Refusal::UnknownDesign);
    }
    if !listed {
        return Err(Refusal::UnknownWidth);
    }
    if !in_range {
        return Err(Refusal::SettingOutOfRange);
    }
    Ok(method_of(design, setting))
}

// And by its operands, of which is known whether each is inside the width.
pub fn of_operands(a_inside: bool, b_inside: bool) -> Result<(), Refusal>
    ensures { refused_by result ≡ first (operand_refusals a_inside b_inside) }
{
    if !a_inside {
        return Err(Refusal::FirstOperandOutsideWidth);
    }
    if !b_inside {
        return Err(Refusal::SecondOperandOutsideWidth);
    }
    Ok(())
}
