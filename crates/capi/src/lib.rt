// The C interface, which `include/highvane.h` declares: the proved operations under C names, each answer a struct by value. A field
// `refusal` of 0 means accepted; where it is not 0 it is the number of the refusal and every other field is 0.
#![tactic(auto)]

ghost use Rattle.std.specs.Prelude.{◌≡◌, length};
ghost use Rattle.designs.specs.Products.{unsigned_outcome, signed_outcome};
ghost use Rattle.scaling.specs.Scaling.{scaled_outcome};
ghost use Rattle.stores.specs.Stores.{store_refusal};
ghost use Rattle.byte_table.specs.Table.{TableProduct};
ghost use Rattle.singles.specs.Singles.{single_outcome};
ghost use Rattle.transcripts.specs.Transcripts.{Written};
ghost use Rattle.capi_rows.specs.Rows.{RowStruct};
ghost use Rattle.capi.specs.Structs.{laid, unsigned_struct, signed_struct, scaled_struct, single_struct};

use refusals::Refusal;
use scaling::Quotients;

// The value of an answer and 0, or zeros and the number of the refusal.
fn laid<T: Copy>(answer: Result<T, Refusal>, zeros: T) -> (T, u32)
    ensures { result ≡ laid answer zeros }
{
    match answer {
        Ok(value) => (value, 0),
        Err(refusal) => (zeros, u32::from(refusal)),
    }
}

#[repr(C)]
#[derive(Clone, Copy)]
pub struct UnsignedProduct {
    pub product: u64,
    pub refusal: u32,
}

#[repr(C)]
#[derive(Clone, Copy)]
pub struct SignedProduct {
    pub product: i64,
    pub refusal: u32,
}

#[unsafe(no_mangle)]
pub extern "C" fn highvane_product_unsigned(
    design: u32,
    width: u32,
    setting: u32,
    a: u64,
    b: u64,
) -> UnsignedProduct
    ensures { result ≡ unsigned_struct (unsigned_outcome design width setting a b) }
{
    let (product, refusal) = laid(products::unsigned_product(design, width, setting, a, b), 0);
    UnsignedProduct { product, refusal }
}

#[unsafe(no_mangle)]
pub extern "C" fn highvane_product_signed(
    design: u32,
    width: u32,
    setting: u32,
    a: i64,
    b: i64,
) -> SignedProduct
    ensures { result ≡ signed_struct (signed_outcome design width setting a b) }
{
    let (product, refusal) = laid(products::signed_product(design, width, setting, a, b), 0);
    SignedProduct { product, refusal }
}

// By any design.
#[unsafe(no_mangle)]
pub extern "C" fn highvane_score_row(
    design: u32,
    setting: u32,
    weights: &[i16],
    frame: &[i16],
    residues: &mut [i64],
) -> capi_rows::ScoredRow
    ensures { RowStruct design setting weights.now frame.now residues.old residues.new result }
{
    capi_rows::laid(rows::score_row(design, setting, weights, frame, residues))
}

#[unsafe(no_mangle)]
pub extern "C" fn highvane_row_refusal(store: &[i16], columns: usize, row: usize) -> u32
    ensures { result ≡ store_refusal (length store.now) columns row }
{
    let ((), refusal) = laid(stores::row_refusal(store, columns, row), ());
    refusal
}

#[repr(C)]
#[derive(Clone, Copy)]
pub struct Scaled {
    pub score: f64,
    pub magnitude_sum: f64,
    pub refusal: u32,
}

#[unsafe(no_mangle)]
pub extern "C" fn highvane_scale(score: i64, magnitude_sum: u64, shift: u32) -> Scaled
    ensures { result ≡ scaled_struct (scaled_outcome score magnitude_sum shift) }
{
    let zeros = Quotients {
        score: 0.0,
        magnitude_sum: 0.0,
    };
    let (values, refusal) = laid(scaling::scale(score, magnitude_sum, shift), zeros);
    Scaled {
        score: values.score,
        magnitude_sum: values.magnitude_sum,
        refusal,
    }
}

#[repr(C)]
#[derive(Clone, Copy)]
pub struct SingleProduct {
    pub value: f32,
    pub refusal: u32,
}

#[unsafe(no_mangle)]
pub extern "C" fn highvane_single_product(a: u32, b: u32) -> SingleProduct
    ensures { result ≡ single_struct (single_outcome a b) }
{
    let (value, refusal) = laid(singles::single_product(a, b), 0.0);
    SingleProduct { value, refusal }
}

#[unsafe(no_mangle)]
pub extern "C" fn highvane_table_product(a: u8, b: u8) -> u16
    ensures { TableProduct a b result }
{
    byte_table::table_product(a, b)
}

#[unsafe(no_mangle)]
pub extern "C" fn highvane_transcript(
    input: &[u8],
    out: &mut [u8; transcripts::TRANSCRIPT_MAX],
) -> usize
    ensures { Written input.now out.old out.new result }
{
    transcripts::transcript(input, out)
}
