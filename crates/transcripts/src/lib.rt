// The transcript of an input of the bench program (docs/SCOPE.md, "The bench program's records" and "Reading records"): a line for each
// record, and the total. Any bytes are accepted.
#![tactic(auto)]

ghost use Rattle.records.specs.Records.{records_of};
ghost use Rattle.refusals.specs.Refusals.{number};
ghost use Rattle.transcripts.specs.Answers.{HasRoom, Appended};
ghost use Rattle.transcripts.specs.Lines.{none, printed};
ghost use Rattle.transcripts.specs.Transcripts.{unread, Written};

mod lines;
mod writers;

use lines::Tally;
use records::Refusal;
use writers::Text;

// The most bytes that are read, and the bytes that hold the transcript of any input.
pub const INPUT_MAX: usize = 65536;

pub const TRANSCRIPT_MAX: usize = 245760;

// Writes the transcript of an input at the start of a buffer that has room for any, and gives its length.
pub fn transcript(input: &[u8], out: &mut [u8; TRANSCRIPT_MAX]) -> usize
    ensures { Written input.now out.old out.new result }
{
    let mut text = Text {
        buffer: out,
        len: 0,
    };
    if INPUT_MAX < input.len() {
        text.put_refusal(Refusal::InputTooLong);
    } else {
        text.put_records(input);
    }
    text.len
}

impl<'a> Text<'a> {
    // What is printed of an input that is refused.
    fn put_refusal(&mut self, refusal: Refusal)
        requires { HasRoom self.old (printed none (unread (number refusal))) }
        ensures { Appended self.old (printed none (unread (number refusal))) self.new }
    {
        let answer = Err(refusal);
        let mut tally = Tally::default();
        tally.count(answer);
        self.put_line(0, answer);
        self.put_total(tally);
    }

    // The lines of all records, and the total.
    fn put_records(&mut self, s: &[u8])
        requires { HasRoom self.old (printed none (records_of s.now)) }
        ensures { Appended self.old (printed none (records_of s.now)) self.new }
    {
        let mut tally = Tally::default();
        for entry in records::read_records(s) {
            self.put_line(entry.kind, entry.answer);
            tally.count(entry.answer);
        }
        self.put_total(tally);
    }
}
