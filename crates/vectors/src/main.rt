// Runs the figures of docs/SCOPE.md, all pairs of the byte table and the vectors of standard input through the library, and prints
// how many it compared and how many were wrong.
#![tactic(auto)]

mod answers;
mod fields;
mod figures;
mod kinds;
mod layer_vectors;
mod lines;
mod output;
mod product_vectors;
mod row_vectors;
mod score_vectors;
mod single_vectors;
mod store_vectors;
mod table;
mod tally;

use kinds::Group;
use output::Output;
use std::fmt::Write;

// More than the vectors take.
const CAPACITY: usize = 2097152;

// What is counted together, under its name.
const GROUPS: [(&str, Group); 6] = [
    ("products: ", Group::Products),
    ("rows: ", Group::Rows),
    ("stores: ", Group::Stores),
    ("layers: ", Group::Layers),
    ("scores: ", Group::Scores),
    ("singles: ", Group::Singles),
];

fn main() {
    let _ = write!(Output, "figures: {}", figures::run());
    let _ = write!(Output, "table: {}", table::run());
    let mut buffer = [0; CAPACITY];
    run(&mut buffer);
}

// The buffer is an array here, so that lending it as a slice asks nothing of its length.
fn run(buffer: &mut [u8; CAPACITY]) {
    read(buffer);
}

// An input that fills the buffer may have been cut off, and then nothing is counted.
fn read(buffer: &mut [u8]) {
    let length = io::read_full(0, buffer);
    if length < buffer.len() {
        count(&buffer[..length]);
    }
}

fn count(input: &[u8]) {
    for (name, group) in GROUPS {
        let _ = write!(Output, "{name}{}", lines::of_group(input, group));
    }
    let known = lines::known(input);
    let _ = write!(
        Output,
        "input: {} lines, {} wrong\n",
        known.compared, known.wrong
    );
}
