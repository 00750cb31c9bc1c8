// Reads the fields of a line, each a space and a decimal number. What cannot be read is no number and no list.
ghost use Rattle.std.specs.Prelude.{◌≤◌, IfSome};

use std::str::FromStr;

// The most that a list, a store or a slice has. A line that asks for more is not read.
pub const LONGEST: usize = 12288;

// The fields that are left to read.
#[derive(Drop)]
pub struct Fields<'a> {
    words: Option<&'a str>,
}

impl<'a> Fields<'a> {
    // Those of what stands behind a line's first letter.
    pub fn of(text: &'a str) -> Option<Self> {
        let words = Some(text.strip_prefix(' ')?);
        Some(Fields { words })
    }

    // The next word. By `split_once`, since a `Split` takes longer for a word.
    fn word(&mut self) -> Option<&'a str> {
        let words = self.words?;
        match words.split_once(' ') {
            Some((word, later)) => {
                self.words = Some(later);
                Some(word)
            }
            None => {
                self.words = None;
                Some(words)
            }
        }
    }

    // The next number.
    pub fn number<T: FromStr>(&mut self) -> Option<T>
    where
        T::Err: Drop,
    {
        parsed(self.word()?)
    }

    // The next number, which is not below zero, in an answer whose numbers have signs: 0 may be −0 there.
    pub fn natural<T: TryFrom<i64>>(&mut self) -> Option<T>
    where
        T::Error: Drop,
    {
        T::try_from(self.number()?).ok()
    }

    pub fn length(&mut self) -> Option<usize>
        ensures { IfSome result (λ n. n ≤ 12288) }
    {
        self.number().filter(|n| *n <= LONGEST)
    }

    // How many places a layer is lent: as many as a length says, and of any other number what its last digits make.
    pub fn places(&mut self) -> Option<usize>
        ensures { IfSome result (λ n. n ≤ 12288) }
    {
        let word = self.word()?;
        parsed::<i64>(word)?;
        let mut count = 0;
        for byte in word.bytes() {
            count = with_digit(count, byte);
        }
        Some(count).filter(|n| *n <= LONGEST)
    }

    // A length, and so many numbers, which go to the first places.
    pub fn list<'b>(&mut self, places: &'b mut [i16; LONGEST]) -> Option<&'b [i16]> {
        let count = self.length()?;
        let numbers = places.get_mut(..count)?;
        for number in numbers.iter_mut() {
            *number = self.number()?;
        }
        Some(numbers)
    }

    pub fn are_read(&self) -> bool {
        self.words.is_none()
    }
}

// The number of a word. A plus sign, which `parse` takes, stands in no line.
fn parsed<T: FromStr>(word: &str) -> Option<T>
where
    T::Err: Drop,
{
    if word.starts_with('+') {
        return None;
    }
    word.parse().ok()
}

// The length with one digit more; none where there is no such length.
fn with_digit(count: usize, byte: u8) -> usize {
    let digit = usize::from(byte.wrapping_sub(b'0'));
    let longer = count.wrapping_mul(10).wrapping_add(digit);
    if digit > 9 || longer > LONGEST {
        return 0;
    }
    longer
}
