//! What the records before one declare.

use csv::ByteRecord;
use dr_records::{Rows, count_of, field, is_named};
use indexmap::IndexSet;
use std::alloc::{AllocError, Global};
use std::str;

/// What the records before one do, none of which is at fault.
#[derive(Drop)]
pub struct Before {
    /// How many they are.
    pub count: u64,
    /// The names of the handlers that they declare.
    pub names: IndexSet<String>,
    /// Whether the setup is over.
    pub has_started: bool,
}

/// A field as a text. One that is not UTF-8 is read as the empty text, which is no name either.
pub fn text_of(field: &[u8]) -> &str {
    str::from_utf8(field).unwrap_or("")
}

fn declare(alloc: Global, before: &mut Before, row: &ByteRecord) -> Result<(), AllocError> {
    for place in 1..count_of(row) {
        let name = String::from_str(alloc, text_of(field(row, place)))?;
        before.names.insert(name)?;
    }
    Ok(())
}

fn take(alloc: Global, before: &mut Before, row: &ByteRecord) -> Result<(), AllocError> {
    before.count = before.count.saturating_add(1);
    if before.has_started {
        return Ok(());
    }
    if is_named(row, b"start".as_slice()) {
        before.has_started = true;
    } else if is_named(row, b"with".as_slice()) || is_named(row, b"then".as_slice()) {
        declare(alloc, before, row)?;
    }
    Ok(())
}

/// Takes the records before the k-th, and leaves that one and those after it.
pub fn take_before(
    alloc: Global,
    before: &mut Before,
    rows: &mut Rows<'_>,
    k: u64,
) -> Result<(), AllocError> {
    for _ in 1..k {
        let Some(row) = rows.next()? else {
            return Ok(());
        };
        take(alloc, before, row)?;
    }
    Ok(())
}
