// Reads records from standard input and writes their transcript to standard output. Of an input that could not be read to its end
// nothing is written. What failed, reading or writing, is one line on standard error: the program ends with status 0 all the same, and
// `tools/bench`, which runs this one, makes a status of that line.
#![tactic(auto)]

mod streams;

fn main(rt: HostRuntime) {
    // One byte past the limit is enough to tell an input that is too long.
    let mut input = [0u8; transcripts::INPUT_MAX + 1];
    match streams::read_input(&mut rt.stdin(), &mut input) {
        Ok(n) => print(&rt, &input[..n]),
        Err(error) => streams::say(&rt, "reading standard input", error),
    }
}

fn print(rt: &HostRuntime, input: &[u8]) {
    let mut out = [0u8; transcripts::TRANSCRIPT_MAX];
    let k = transcripts::transcript(input, &mut out);
    if let Err(error) = streams::write_output(rt, &out[..k]) {
        streams::say(rt, "writing standard output", error);
    }
}
