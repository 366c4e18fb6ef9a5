//! Where a record is at fault, and what may stand there, as a text for a person.

use crate::hints::{is_header, is_wide, record_hint};
use crate::lines::start_of;
use crate::operations::operation_place;
use crate::place::{Place, found};
use crate::records_before::{Before, take_before};
use crate::records_of_drive::drive_place;
use csv::ByteRecord;
use dr_drive::Cause;
use dr_records::Rows;
use indexmap::IndexSet;
use std::alloc::{AllocError, Global};

/// The most bytes of a field that are shown.
const MOST_SHOWN: usize = 40;

// Puts a byte as it is where it is printable ASCII, and else in hexadecimal digits.
fn put_byte(told: &mut String, byte: u8) -> Result<(), AllocError> {
    if byte.is_ascii_graphic() || byte == b' ' {
        told.push(byte as char)
    } else {
        write!(told, "\\x{byte:02x}")
    }
}

fn put_field(told: &mut String, field: &[u8]) -> Result<(), AllocError> {
    told.push_str("\"")?;
    for byte in field.iter().take(MOST_SHOWN) {
        put_byte(told, *byte)?;
    }
    if field.len() > MOST_SHOWN {
        told.push_str("..")?;
    }
    told.push_str("\"")
}

fn put_found(told: &mut String, row: &ByteRecord, place: Place) -> Result<(), AllocError> {
    match found(row, place) {
        Some(field) => put_field(told, field),
        None => told.push_str("nothing"),
    }
}

fn put_hint(told: &mut String, hint: Option<&'static str>) -> Result<(), AllocError> {
    match hint {
        Some(hint) => write!(told, "\nhint: {hint}"),
        None => Ok(()),
    }
}

// Puts where the k-th record of a text is at fault, and what may stand there.
fn put_record(
    told: &mut String,
    text: &[u8],
    k: u64,
    row: &ByteRecord,
    place: Place,
) -> Result<(), AllocError> {
    let start = start_of(text, k);
    let line = start.line;
    let number = place.number;
    let wanted = place.wanted;
    write!(told, "line {line}, field {number}: found ")?;
    put_found(told, row, place)?;
    write!(told, ", expected {wanted}")?;
    let hint = if is_wide(text) {
        Some("save the file as UTF-8: it is UTF-16")
    } else if start.is_open {
        Some("a quote in this record is never closed, so its field goes to the end of the file")
    } else {
        record_hint(row, place)
    };
    put_hint(told, hint)
}

// Puts that a text ends before its k-th record, which may be this.
fn put_end(told: &mut String, text: &[u8], k: u64, wanted: &str) -> Result<(), AllocError> {
    let line = start_of(text, k).line;
    write!(
        told,
        "line {line}: found the end of the file, expected {wanted}"
    )
}

// Puts where the next row, the k-th, is at fault by a cause, with what the rows before it declared.
fn put_command(
    alloc: Global,
    told: &mut String,
    before: &Before,
    rows: &mut Rows<'_>,
    text: &[u8],
    k: u64,
    cause: Cause,
) -> Result<(), AllocError> {
    let wanted = if k == 1 {
        "ring,SIZE,single or ring,SIZE,multi,P"
    } else {
        "start"
    };
    match rows.next()? {
        Some(row) => {
            let place = drive_place(alloc, row, before, cause)?;
            put_record(told, text, k, row, place)
        }
        None => put_end(told, text, k, wanted),
    }
}

fn put_drive(
    alloc: Global,
    told: &mut String,
    before: &mut Before,
    text: &[u8],
    k: u64,
    cause: Cause,
) -> Result<(), AllocError> {
    let mut rows = Rows::new(alloc, text);
    take_before(alloc, before, &mut rows, k)?;
    put_command(alloc, told, before, &mut rows, text, k, cause)
}

/// Where the k-th record of a command file is at fault by a cause.
pub fn drive_told(alloc: Global, text: &[u8], k: u64, cause: Cause) -> Result<String, AllocError> {
    let mut told = String::new(alloc);
    let mut before = Before {
        count: 0,
        names: IndexSet::new(alloc),
        has_started: false,
    };
    put_drive(alloc, &mut told, &mut before, text, k, cause)?;
    Ok(told)
}

fn pass_over(rows: &mut Rows<'_>, count: u64) -> Result<(), AllocError> {
    for _ in 0..count {
        if rows.next()?.is_none() {
            return Ok(());
        }
    }
    Ok(())
}

// Puts where the next row, the k-th, is no operation.
fn put_operation(
    told: &mut String,
    rows: &mut Rows<'_>,
    text: &[u8],
    k: u64,
) -> Result<(), AllocError> {
    let Some(row) = rows.next()? else {
        return Ok(());
    };
    put_record(told, text, k, row, operation_place(row))?;
    if is_header(row, k) {
        put_hint(told, Some("take the row of headers out"))
    } else {
        Ok(())
    }
}

fn put_replay(alloc: Global, told: &mut String, text: &[u8], k: u64) -> Result<(), AllocError> {
    let mut rows = Rows::new(alloc, text);
    pass_over(&mut rows, k.saturating_sub(1))?;
    put_operation(told, &mut rows, text, k)
}

/// Where the k-th record of an event file is no operation.
pub fn replay_told(alloc: Global, text: &[u8], k: u64) -> Result<String, AllocError> {
    let mut told = String::new(alloc);
    put_replay(alloc, &mut told, text, k)?;
    Ok(told)
}
