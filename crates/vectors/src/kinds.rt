// The kinds of lines, and whether what the library gives is what a line says.
use crate::fields::Fields;
use crate::{
    figures, layer_vectors, product_vectors, row_vectors, score_vectors, single_vectors,
    store_vectors,
};
use std::str;

#[derive(Clone, Copy)]
enum Kind {
    Unsigned,
    Signed,
    Row,
    Store,
    Layer,
    Score,
    Single,
    Square,
    RowOfOnes,
}

// The kinds that are counted together.
#[derive(Clone, Copy, PartialEq, Eq)]
pub enum Group {
    Products,
    Rows,
    Stores,
    Layers,
    Scores,
    Singles,
}

impl Kind {
    // By the letter that a line starts with.
    fn of(letter: u8) -> Option<Kind> {
        match letter {
            b'u' => Some(Kind::Unsigned),
            b's' => Some(Kind::Signed),
            b'r' => Some(Kind::Row),
            b't' => Some(Kind::Store),
            b'l' => Some(Kind::Layer),
            b'h' => Some(Kind::Score),
            b'f' => Some(Kind::Single),
            b'q' => Some(Kind::Square),
            b'n' => Some(Kind::RowOfOnes),
            _ => None,
        }
    }

    // The kinds of the figures alone are in none.
    fn group(self) -> Option<Group> {
        match self {
            Kind::Unsigned | Kind::Signed => Some(Group::Products),
            Kind::Row => Some(Group::Rows),
            Kind::Store => Some(Group::Stores),
            Kind::Layer => Some(Group::Layers),
            Kind::Score => Some(Group::Scores),
            Kind::Single => Some(Group::Singles),
            Kind::Square | Kind::RowOfOnes => None,
        }
    }
}

pub fn group_of(line: &[u8]) -> Option<Group> {
    Kind::of(*line.first()?)?.group()
}

// A line that cannot be read is wrong, and so is one that is no text.
pub fn is_right(line: &[u8]) -> bool {
    is_met(line).unwrap_or(false)
}

fn is_met(line: &[u8]) -> Option<bool> {
    let (letter, rest) = line.split_first()?;
    let kind = Kind::of(*letter)?;
    let text = str::from_utf8(rest).ok()?;
    let mut fields = Fields::of(text.strip_suffix('\n').unwrap_or(text))?;
    let is_met = match kind {
        Kind::Unsigned => product_vectors::is_unsigned(&mut fields)?,
        Kind::Signed => product_vectors::is_signed(&mut fields)?,
        Kind::Row => row_vectors::is_row(&mut fields)?,
        Kind::Store => store_vectors::is_part(&mut fields)?,
        Kind::Layer => layer_vectors::is_layer(&mut fields)?,
        Kind::Score => score_vectors::is_score(&mut fields)?,
        Kind::Single => single_vectors::is_single(&mut fields)?,
        Kind::Square => figures::is_square(&mut fields)?,
        Kind::RowOfOnes => figures::is_row_of_ones(&mut fields)?,
    };
    Some(is_met && fields.are_read())
}
