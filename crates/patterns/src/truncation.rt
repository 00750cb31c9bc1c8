// Patterns with the kept bits of the fraction alone, and the carry of design 4.
ghost use Rattle.std.specs.Prelude.{◌≡◌, ◌+◌, ◌-◌, ◌*◌, ◌%◌, ◌^◌, ◌≤◌, if◌then◌else◌, bit_and, nat_lt};
ghost use Rattle.patterns.specs.Patterns.{carried_of, clamped};

use crate::logs::ONE;

// The place above the fraction field.
pub(crate) const HIDDEN: u32 = 1 << 23;

// All but the sign.
const SIZE: u32 = 0x7fff_ffff;

// How many bits of a fraction are kept.
#[derive(Clone, Copy)]
pub(crate) struct KeptBits {
    pub count: u32,
    ghost some: { 1 ≤ count },
    ghost few: { count ≤ 15 },
}

impl KeptBits {
    // At least 1 and at most 15.
    pub(crate) fn of(kept_bits: u32) -> KeptBits
        ensures { result.count ≡ clamped kept_bits }
    {
        KeptBits {
            count: kept_bits.clamp(1, 15),
        }
    }

    // The place of the last of them.
    pub(crate) fn last_place(self) -> u32
        ensures { result ≡ 2 ^ (23 - self.count) }
    {
        HIDDEN >> self.count
    }

    // A pattern without the bits of its fraction below the last kept one.
    pub(crate) fn cut(self, p: u32) -> u32
        ensures { result ≡ bit_and p (2 ^ 32 - 2 ^ (23 - self.count)) }
    {
        p & (u32::MAX - self.last_place() + 1)
    }

    // A sum of two such patterns with its carry. Below 2^count nothing was cut, so the number is whole, and the carry would add less than 1 to
    // it, which the design rounds down.
    pub(crate) fn with_carry(self, sum: u32) -> u32
        ensures { result ≡ carried_of self.count sum }
    {
        std::num::wrapping_add_u32(sum, self.carry(sum))
    }

    fn carry(self, sum: u32) -> u32
        ensures { result ≡ (if nat_lt (sum % 2 ^ 31) (127 * 2 ^ 23 + self.count * 2 ^ 23) then 0 else 2 ^ (23 - self.count)) }
    {
        if sum & SIZE < ONE + (self.count << 23) {
            return 0;
        }
        self.last_place()
    }
}
