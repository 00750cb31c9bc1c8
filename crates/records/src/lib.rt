// The first record of the bench's input, framed and evaluated (docs/SCOPE.md, "Reading records"). Any bytes and any place are accepted.
#![tactic(auto)]

ghost use Rattle.std.specs.Prelude.{◌≡◌, IfOk};
ghost use Rattle.records.specs.Frames.{frame};
ghost use Rattle.records.specs.Records.{record_of, next_at, records_of};
ghost use Rattle.records.specs.Answers.{number, KindOf, frame_given, entry_given, reading_given, records_left};

mod fields;
mod kinds;

pub use kinds::Kind;
pub use refusals::Refusal;

// The result of a record's operation, or the refusal, as for a signed product.
pub type Answer = Result<i64, Refusal>;

// Which bytes are a record, before anything is computed: the byte of its kind, the kind of a whole record or the refusal of the reading, and
// how many bytes it takes. One that the reading refuses takes all that is left.
#[derive(Clone, Copy, Debug, PartialEq, Eq)]
pub struct Frame {
    pub kind: u8,
    pub reading: Result<Kind, Refusal>,
    pub used: usize,
}

// A record that was read: the byte of its kind, its answer, and how many bytes it takes.
#[derive(Clone, Copy, Debug, PartialEq, Eq)]
pub struct Entry {
    pub kind: u8,
    pub answer: Answer,
    pub used: usize,
}

// The record at a place of an input, or `None` where the input has ended.
pub fn read_record(input: &[u8], at: usize) -> Option<Entry>
    ensures { reading_given result ≡ next_at input.now at }
{
    if at < input.len() {
        Some(first_record(&input[at..]))
    } else {
        None
    }
}

// The first record of an input, evaluated.
pub fn first_record(s: &[u8]) -> Entry
    ensures { entry_given result ≡ record_of s.now }
{
    let Frame {
        kind,
        reading,
        used,
    } = first_frame(s);
    // A refused record is an entry too, so no `?`.
    let answer = match reading {
        Ok(known) => known.answer(&s[1..used]),
        Err(refusal) => Err(refusal),
    };
    Entry { kind, answer, used }
}

// The frame of an input's first record. An input that has ended frames as a record of the unknown kind 0 that takes nothing.
pub fn first_frame(s: &[u8]) -> Frame
    ensures frame { frame_given result ≡ frame s.now }
    ensures kind { IfOk result.reading (λ k. number k ≡ result.kind) }
{
    let kind = fields::first_byte(s);
    let reading = read_kind(kind, s.len());
    let used = match reading {
        Ok(known) => 1 + known.body_length(),
        Err(_) => s.len(),
    };
    Frame {
        kind,
        reading,
        used,
    }
}

// The kind that a byte names, where so many bytes, the kind's included, hold its body.
fn read_kind(byte: u8, left: usize) -> Result<Kind, Refusal>
    ensures { KindOf byte left result }
{
    let kind = Kind::try_from(byte)?;
    if left <= kind.body_length() {
        return Err(Refusal::CutShort);
    }
    Ok(kind)
}

// The records of an input that are still to be read.
#[derive(Clone, Copy)]
pub struct Records<'a> {
    left: &'a [u8],
}

// All records of an input, one after the other.
pub fn read_records(input: &[u8]) -> Records<'_>
    ensures { records_left result ≡ records_of input.now }
{
    Records { left: input }
}

impl<'a> Iterator for Records<'a> {
    ghost use Rattle.std.specs.Iterator.{YieldsFirstBy, item_count};
    ghost use Rattle.records.specs.Answers.{records_left};

    type Item = Entry;

    ghost next_gives = { YieldsFirstBy entry_given records_left };

    ghost remaining = { item_count records_left };

    fn next(&mut self) -> Option<Entry> {
        if self.left.is_empty() {
            return None;
        }
        let entry = first_record(self.left);
        self.left = &self.left[entry.used..];
        Some(entry)
    }
}
