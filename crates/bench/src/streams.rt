// Standard input to its end and standard output whole, by calls that may move fewer bytes than they are asked to, or none where a signal
// comes first.
ghost use Rattle.std.specs.Prelude.{IfOk};
ghost use Rattle.io.specs.Counts.{IsPrefixLen};

use std::fs::File;
use std::io::{Error, ErrorKind, Read, Write};
use std::{fs, io};

// Standard output as a file, where it is one.
const OUTPUT: &str = "/dev/stdout";

// Reads until the input ends or the buffer is full, and hands back how many of its bytes then stand at the start of the buffer. A loop of
// its own, since std's `read_exact` gives no count where the input ends first, and its `read_to_end` fills no slice. A proved loop has to
// end, and nothing says that signals do: so it makes at most as many calls as no run uses up.
pub fn read_input<R: Read>(input: &mut R, buffer: &mut [u8]) -> io::Result<usize>
    ensures { IfOk result (λ n. IsPrefixLen n buffer.new) }
{
    let mut done = 0;
    for _ in 0..u64::MAX {
        if done >= buffer.len() {
            return Ok(done);
        }
        match input.read(&mut buffer[done..]) {
            Ok(0) => return Ok(done),
            Ok(n) => done += n,
            // A call that a signal interrupted before it moved a byte is made again.
            Err(error) if error.kind() == ErrorKind::Interrupted => {}
            Err(error) => return Err(error),
        }
    }
    Err(Error::from(ErrorKind::Interrupted))
}

// Writes all of a text to standard output, and has it stored. By the writer's `write_all`: that of printing gives up after 64 signals. An
// output that takes nothing is told by the words of its kind.
pub fn write_output(rt: &HostRuntime, text: &[u8]) -> io::Result<()> {
    match Write::write_all(&mut rt.stdout(), text) {
        Err(error) if error.kind() == ErrorKind::WriteZero => Err(Error::from(error.kind())),
        Err(error) => Err(error),
        Ok(()) => store(rt),
    }
}

// A file may say only when it is stored that it had no room. A pipe or a terminal stores nothing, and what this program may not open again, or
// cannot find, is left. Looking for the file is made again here where a signal interrupted it: std makes only opening and storing again.
fn store(rt: &HostRuntime) -> io::Result<()> {
    for _ in 0..u64::MAX {
        match store_once(rt) {
            Err(error) if is_out_of_reach(&error) => return Ok(()),
            Err(error) if error.kind() == ErrorKind::Interrupted => {}
            stored => return stored,
        }
    }
    Err(Error::from(ErrorKind::Interrupted))
}

fn store_once(rt: &HostRuntime) -> io::Result<()> {
    if fs::metadata(rt, OUTPUT)?.is_file() {
        File::options().write(true).open(rt, OUTPUT)?.sync_all()?;
    }
    Ok(())
}

fn is_out_of_reach(error: &Error) -> bool {
    matches!(
        error.kind(),
        ErrorKind::PermissionDenied | ErrorKind::NotFound
    )
}

// One line on standard error, with the system's words for the error. Where even that cannot be written nothing is left to say.
pub fn say(rt: &HostRuntime, what: &str, error: Error) {
    let _ = match format!(in rt.alloc(); "{error}") {
        Ok(text) => eprintln!(rt; "bench: {what}: {}", without_number(&text)),
        Err(_) => eprintln!(rt; "bench: {what}: {error}"),
    };
}

// The library adds the error's number to the system's words.
fn without_number(text: &str) -> &str {
    match text.rsplit_once(" (os error ") {
        Some((words, _)) => words,
        None => text,
    }
}
