//! What is usually wrong where a record is at fault.

use crate::place::{Kind, Place, found};
use csv::ByteRecord;
use dr_records::{count_of, field};

// Whether bytes are digits, or this other byte.
fn are_digits(bytes: &[u8], other: u8) -> bool {
    for byte in bytes {
        if !byte.is_ascii_digit() && *byte != other {
            return false;
        }
    }
    true
}

fn has_capital(bytes: &[u8]) -> bool {
    for byte in bytes {
        if byte.is_ascii_uppercase() {
            return true;
        }
    }
    false
}

// A hint where a number may stand, and this does.
fn number_hint(found: &[u8]) -> Option<&'static str> {
    match found {
        [] => None,
        [b'+' | b'-', ..] => Some("write digits alone, without a sign"),
        _ if are_digits(found, b'0') => Some("the format has no such number"),
        _ if are_digits(found, b'.') => {
            Some("write digits alone, and amounts in the least unit, as 1050 for 10.50")
        }
        _ => None,
    }
}

// A hint where something may stand, and this does.
fn found_hint(found: &[u8], kind: Kind) -> Option<&'static str> {
    match (kind, found) {
        (_, [b' ' | b'\t', ..] | [.., b' ' | b'\t']) => {
            Some("nothing is trimmed: take the blank out")
        }
        (Kind::Number, _) => number_hint(found),
        (Kind::Word, _) if has_capital(found) => Some("write small letters"),
        (Kind::End, [_, _, _]) if are_digits(found, b'0') => {
            Some("a comma parts fields: write numbers without it")
        }
        _ => None,
    }
}

// A hint by a record of one field alone.
fn separator_hint(row: &ByteRecord) -> Option<&'static str> {
    let only = field(row, 0);
    if count_of(row) != 1 {
        None
    } else if only.contains(&b';') {
        Some("put commas between fields, and not semicolons")
    } else if only.contains(&b'\t') {
        Some("put commas between fields, and not tabs")
    } else {
        None
    }
}

/// Whether a text is UTF-16: it has its byte order mark, or a NUL byte as one of its first two.
pub fn is_wide(text: &[u8]) -> bool {
    match text {
        [0xff, 0xfe, ..] | [0xfe, 0xff, ..] | [0, ..] | [_, 0, ..] => true,
        _ => false,
    }
}

/// What is usually wrong where this stands at a place of a record.
pub fn record_hint(row: &ByteRecord, place: Place) -> Option<&'static str> {
    let by_separator = separator_hint(row);
    if by_separator.is_some() {
        return by_separator;
    }
    match found(row, place) {
        Some(found) => found_hint(found, place.kind),
        None => None,
    }
}

// Whether a field of a record begins with a letter.
fn is_wordy(row: &ByteRecord, at: usize) -> bool {
    matches!(field(row, at), [b'a'..=b'z' | b'A'..=b'Z', ..])
}

/// Whether the first record of an event file is a row of headers.
pub fn is_header(row: &ByteRecord, k: u64) -> bool {
    let count = count_of(row);
    k == 1 && count > 1 && is_wordy(row, 0) && is_wordy(row, count.saturating_sub(1))
}
