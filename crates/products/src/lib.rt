// Products by the designs, unsigned and signed (docs/SCOPE.md, "Product, unsigned or signed"). Both operations take any numbers
// and give the product or the first refusal that applies.
#![tactic(auto)]

ghost use Rattle.std.specs.Prelude.{◌≡◌};
ghost use Rattle.designs.specs.Products.{unsigned_outcome, signed_outcome};
ghost use Rattle.products.specs.Answers.{unsigned_given, signed_given};

use refusals::Refusal;

mod by_design;
mod operands;

// The design's product of two unsigned numbers of a width. It is judged in two steps: of one the compiler makes every test before it
// branches.
pub fn unsigned_product(
    design: u32,
    width: u32,
    setting: u32,
    a: u64,
    b: u64,
) -> Result<u64, Refusal>
    ensures { unsigned_given result ≡ unsigned_outcome design width setting a b }
{
    let method = refusals::of_setting(design, width, setting)?;
    let a_inside = operands::inside_unsigned(width, a);
    let b_inside = operands::inside_unsigned(width, b);
    refusals::of_operands(a_inside, b_inside)?;
    Ok(by_design::product_of(method, a as u32, b as u32))
}

// The design's product of two signed numbers of a width: that of their sizes, with a minus sign where their signs differ. By the type of the
// numbers its tests of the operands and its product are others than the unsigned one's.
pub fn signed_product(design: u32, width: u32, setting: u32, a: i64, b: i64) -> Result<i64, Refusal>
    ensures { signed_given result ≡ signed_outcome design width setting a b }
{
    let method = refusals::of_setting(design, width, setting)?;
    let a_inside = operands::inside_signed(width, a);
    let b_inside = operands::inside_signed(width, b);
    refusals::of_operands(a_inside, b_inside)?;
    Ok(by_design::signed_of(method, a, b))
}
