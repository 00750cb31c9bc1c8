// The kinds of records. A further kind is a variant, and an arm of each of the three matches.
ghost use Rattle.std.specs.Prelude.{◌≡◌, length};
ghost use Rattle.designs.specs.Outcomes.{accepted};
ghost use Rattle.refusals.specs.Refusals.{answer};
ghost use Rattle.records.specs.Kinds.{kind_of, signed_record, single_record, table_record};
ghost use Rattle.records.specs.Answers.{KindRead, number};

use crate::{Answer, Refusal, fields};

// What a record asks for.
#[derive(Clone, Copy, Debug, PartialEq, Eq)]
pub enum Kind {
    SignedProduct,
    SingleProduct,
    TableProduct,
}

impl TryFrom<u8> for Kind {
    type Error = Refusal;

    ghost try_from_gives = { KindRead };

    #[tactic(auto, unfolding(crate::specs::Kinds::kind_of))]
    fn try_from(byte: u8) -> Result<Kind, Refusal> {
        match byte {
            1 => Ok(Kind::SignedProduct),
            2 => Ok(Kind::SingleProduct),
            3 => Ok(Kind::TableProduct),
            _ => Err(Refusal::UnknownKind),
        }
    }
}

impl Kind {
    #[tactic(auto, unfolding(crate::specs::Kinds::kind_of))]
    pub fn body_length(self) -> usize
        ensures { result ≡ (kind_of (number self)).body }
    {
        match self {
            Kind::SignedProduct => 6,
            Kind::SingleProduct => 8,
            Kind::TableProduct => 2,
        }
    }

    // The answer of a record with a whole body.
    #[tactic(auto, unfolding(crate::specs::Kinds::kind_of))]
    pub(crate) fn answer(self, body: &[u8]) -> Answer
        requires { length body.now ≡ (kind_of (number self)).body }
        ensures { answer result ≡ (kind_of (number self)).outcome body.now }
    {
        match self {
            Kind::SignedProduct => signed_record(body),
            Kind::SingleProduct => single_record(body),
            Kind::TableProduct => Ok(table_record(body)),
        }
    }
}

// A signed product at width 16.
fn signed_record(body: &[u8]) -> Answer
    requires { length body.now ≡ 6 }
    ensures { answer result ≡ signed_record body.now }
{
    let x = fields::signed_two_bytes(body, 2);
    let y = fields::signed_two_bytes(body, 4);
    products::signed_product(body[0] as u32, 16, body[1] as u32, x, y)
}

// A single product: its pattern.
fn single_record(body: &[u8]) -> Answer
    requires { length body.now ≡ 8 }
    ensures { answer result ≡ single_record body.now }
{
    let x = fields::four_bytes(body, 0);
    let y = fields::four_bytes(body, 4);
    let pattern = singles::bits(singles::single_product(x, y))?;
    Ok(pattern as i64)
}

// A product by the table.
fn table_record(body: &[u8]) -> i64
    requires { length body.now ≡ 2 }
    ensures { accepted result ≡ table_record body.now }
{
    byte_table::table_product(body[0], body[1]) as i64
}
