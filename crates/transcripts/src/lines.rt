// The lines that records print, and what they count for.
ghost use Rattle.std.specs.Prelude.{◌≡◌, ◌^◌, ◌<◌};
ghost use Rattle.refusals.specs.Refusals.{answer};
ghost use Rattle.transcripts.specs.Text.{ascii};
ghost use Rattle.transcripts.specs.Lines.{line, total_line, counted};
ghost use Rattle.transcripts.specs.Answers.{HasRoom, Appended, tally_given};

use crate::writers::Text;
use records::Answer;

// How many records were accepted, and how many refused.
#[derive(Clone, Copy, Default)]
pub(crate) struct Tally {
    accepted: u64,
    refused: u64,
}

impl Tally {
    // One record more.
    pub(crate) fn count(&mut self, outcome: Answer)
        requires { (self.old.accepted < 2 ^ 63) × (self.old.refused < 2 ^ 63) }
        ensures { tally_given self.new ≡ counted (tally_given self.old) (answer outcome) }
    {
        match outcome {
            Ok(_) => self.accepted += 1,
            Err(_) => self.refused += 1,
        }
    }
}

impl<'a> Text<'a> {
    // A record's line: its kind, the word of its answer, and the result or the refusal.
    pub(crate) fn put_line(&mut self, kind: u8, outcome: Answer)
        requires { HasRoom self.old (line kind (answer outcome)) }
        ensures { Appended self.old (line kind (answer outcome)) self.new }
    {
        self.put_number(kind as u64);
        match outcome {
            Ok(v) => {
                self.put_bytes(b" ok ");
                self.put_signed(v);
            }
            Err(refusal) => {
                self.put_bytes(b" no ");
                self.put_number(u32::from(refusal) as u64);
            }
        }
        self.end_line();
    }

    // The last line.
    pub(crate) fn put_total(&mut self, tally: Tally)
        requires { HasRoom self.old (total_line (tally_given tally)) }
        ensures { Appended self.old (total_line (tally_given tally)) self.new }
    {
        self.put_bytes(b"total ");
        self.put_number(tally.accepted);
        self.put(b' ');
        self.put_number(tally.refused);
        self.end_line();
    }

    fn end_line(&mut self)
        requires { HasRoom self.old (ascii "\n") }
        ensures { Appended self.old (ascii "\n") self.new }
    {
        self.put(b'\n');
    }
}
