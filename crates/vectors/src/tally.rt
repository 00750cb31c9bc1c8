// How many comparisons were made, and how many of them came out wrong.
use std::fmt;

#[derive(Clone, Copy, Default)]
pub struct Tally {
    pub compared: u64,
    pub wrong: u64,
}

impl Tally {
    // The counts are modulo 2^64, which no input is long enough to reach.
    pub fn count(&mut self, is_right: bool) {
        self.compared = self.compared.wrapping_add(1);
        self.wrong = self.wrong.wrapping_add(u64::from(!is_right));
    }
}

// To the end of a line.
impl fmt::Display for Tally {
    fn fmt<W: fmt::Write>(&self, f: &mut fmt::Formatter<W>) -> fmt::Result {
        write!(f, "{} compared, {} wrong\n", self.compared, self.wrong)
    }
}
