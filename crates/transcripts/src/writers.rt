// Text at the start of a buffer that the caller lends and that has room for it.
ghost use Rattle.std.specs.Prelude.{◌≡◌, [], ◌∷◌};
ghost use Rattle.transcripts.specs.Text.{Room, Put, decimal, signed_decimal};
ghost use Rattle.transcripts.specs.Answers.{HasRoom, Appended};

// A buffer, of which the first places hold what is written.
#[derive(Drop)]
pub(crate) struct Text<'a> {
    pub(crate) buffer: &'a mut [u8],
    pub(crate) len: usize,
}

impl<'a> Text<'a> {
    // One byte.
    pub(crate) fn put(&mut self, b: u8)
        requires { HasRoom self.old (b ∷ []) }
        ensures { Appended self.old (b ∷ []) self.new }
    {
        self.buffer[self.len] = b;
        self.len += 1;
    }

    // A run of bytes.
    pub(crate) fn put_bytes(&mut self, text: &[u8])
        requires { HasRoom self.old text.now }
        ensures { Appended self.old text.now self.new }
    {
        for b in text {
            self.put(*b);
        }
    }

    // A number in decimal.
    pub(crate) fn put_number(&mut self, n: u64)
        requires { HasRoom self.old (decimal n) }
        ensures { Appended self.old (decimal n) self.new }
    {
        self.len = put_digits(self.buffer, self.len, n);
    }

    // A signed number in decimal, the lowest included.
    pub(crate) fn put_signed(&mut self, v: i64)
        requires { HasRoom self.old (signed_decimal v) }
        ensures { Appended self.old (signed_decimal v) self.new }
    {
        if v < 0 {
            self.put(b'-');
        }
        self.put_number(v.unsigned_abs());
    }
}

// A number in decimal from a place on, and the place after it: without its last digit it is n / 10. The place is handed on, so that it stays in
// a register from digit to digit. By hand, since the contract of a transcript names each byte of a lent buffer.
fn put_digits(out: &mut [u8], at: usize, n: u64) -> usize
    requires { Room out.old at (decimal n) }
    ensures { Put out.old at (decimal n) out.new result }
{
    if n < 10 {
        out[at] = b'0' + n as u8;
        at + 1
    } else {
        let last = put_digits(out, at, n / 10);
        out[last] = b'0' + (n % 10) as u8;
        last + 1
    }
}
