// The fields of a record: its kind's byte, and those of its body, the lower byte first.
ghost use Rattle.std.specs.Prelude.{◌≡◌, ◌+◌, ◌<◌, length, get_or};
ghost use Rattle.records.specs.Fields.{field16, field32, signed};

// The byte that an input starts with; 0 where it has none.
pub(crate) fn first_byte(s: &[u8]) -> u8
    ensures { result ≡ get_or s.now 0 0 }
{
    s.first().copied().unwrap_or(0)
}

pub(crate) fn four_bytes(b: &[u8], i: usize) -> u32
    requires { i + 3 < length b.now }
    ensures { result ≡ field32 b.now i }
{
    u32::from_le_bytes([b[i], b[i + 1], b[i + 2], b[i + 3]])
}

// A signed field of 16 bits, by two's complement.
pub(crate) fn signed_two_bytes(b: &[u8], i: usize) -> i64
    requires { i + 1 < length b.now }
    ensures { result ≡ signed 16 (field16 b.now i) }
{
    i16::from_le_bytes([b[i], b[i + 1]]) as i64
}
