// Standard output. Each piece of a line is a write of its own.
use std::fmt;

#[derive(Drop)]
pub struct Output;

// What cannot be written is left out, and what follows is still tried. So the status says nothing of it, but lines that are missing do.
impl fmt::Write for Output {
    fn write_str(&mut self, text: &str) -> fmt::Result {
        io::write_all(1, text.as_bytes());
        Ok(())
    }
}
