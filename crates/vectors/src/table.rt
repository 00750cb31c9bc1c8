// The byte table against design 1 at width 8, over all pairs of bytes.
use crate::tally::Tally;

pub fn run() -> Tally {
    let mut tally = Tally::default();
    for a in 0..=u8::MAX {
        for b in 0..=u8::MAX {
            tally.count(is_same(a, b));
        }
    }
    tally
}

fn is_same(a: u8, b: u8) -> bool {
    let product = byte_table::table_product(a, b);
    products::unsigned_product(1, 8, 0, u64::from(a), u64::from(b)) == Ok(u64::from(product))
}
