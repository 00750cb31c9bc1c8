// Goes through a text line by line and counts lines.
use crate::kinds::{Group, group_of, is_right};
use crate::tally::Tally;

// Every line.
pub fn all(text: &[u8]) -> Tally {
    count(text, |line| Some(is_right(line)))
}

// The lines of a group.
pub fn of_group(text: &[u8], group: Group) -> Tally {
    count(text, |line| {
        (group_of(line) == Some(group)).then(|| is_right(line))
    })
}

// Every line, and one that is of no group is wrong.
pub fn known(text: &[u8]) -> Tally {
    count(text, |line| Some(group_of(line).is_some()))
}

// The lines of which `judge`, which has them with their line feeds, says whether they are right. A last line without one is wrong.
fn count<F: Fn(&[u8]) -> Option<bool>>(text: &[u8], judge: F) -> Tally
    requires { F.IsAlwaysCallable judge }
{
    let mut tally = Tally::default();
    for line in text.split_inclusive(|byte| *byte == b'\n') {
        if let Some(is_right) = judge(line) {
            tally.count(is_right);
        }
    }
    if !text.is_empty() && !text.ends_with(b"\n") {
        tally.count(false);
    }
    tally
}
