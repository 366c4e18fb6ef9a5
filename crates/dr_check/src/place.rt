//! A place in a record, and what may stand there.

use csv::ByteRecord;
use dr_records::{count_of, field, number_at};

/// What kind of thing may stand at a place, by which a hint is chosen.
#[derive(Clone, Copy)]
pub enum Kind {
    /// A number.
    Number,
    /// One of some words.
    Word,
    /// A name, or whatever else there is.
    Other,
    /// The record's end.
    End,
}

/// A field of a record, counted from 1, and what may stand there.
#[derive(Clone, Copy)]
pub struct Place {
    pub number: usize,
    pub kind: Kind,
    pub wanted: &'static str,
}

/// A place where a number may stand.
pub fn number(number: usize, wanted: &'static str) -> Place {
    let kind = Kind::Number;
    Place {
        number,
        kind,
        wanted,
    }
}

/// A place where one of some words may stand.
pub fn word(number: usize, wanted: &'static str) -> Place {
    let kind = Kind::Word;
    Place {
        number,
        kind,
        wanted,
    }
}

/// A place where something else may stand.
pub fn other(number: usize, wanted: &'static str) -> Place {
    let kind = Kind::Other;
    Place {
        number,
        kind,
        wanted,
    }
}

/// A place behind a record's last field.
pub fn end(number: usize, wanted: &'static str) -> Place {
    let kind = Kind::End;
    Place {
        number,
        kind,
        wanted,
    }
}

/// What stands at a place: nothing where the record has fewer fields.
pub fn found(row: &ByteRecord, place: Place) -> Option<&[u8]> {
    if place.number <= count_of(row) {
        Some(field(row, place.number.saturating_sub(1)))
    } else {
        None
    }
}

/// Whether a number below a bound stands in a field, counted from 1.
pub fn is_below(row: &ByteRecord, number: usize, bound: u64) -> bool {
    match number_at(row, number.saturating_sub(1)) {
        Some(found) => found < bound,
        None => false,
    }
}

/// Whether a number stands in a field, counted from 1.
pub fn is_number(row: &ByteRecord, number: usize) -> bool {
    number_at(row, number.saturating_sub(1)).is_some()
}
