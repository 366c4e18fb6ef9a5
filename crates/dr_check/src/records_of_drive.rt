//! Where a record of a command file is at fault.

use crate::place::{Place, end, is_number, number, other, word};
use crate::records_before::{Before, text_of};
use csv::ByteRecord;
use dr_drive::Cause;
use dr_graph::GraphFault;
use dr_records::{count_of, field, is_named};
use indexmap::IndexSet;
use std::alloc::{AllocError, Global};

const SIZE: &str = "a power of two from 1 to 65536";

const PRODUCERS: &str = "a number of producers from 1 to 16";

const LIMIT: &str = "a limit from 1 to 4611686018427387904";

const NUMBER: &str = "a number from 0 to 18446744073709551615";

const NAME: &str = "a handler's name: 1 to 32 letters, digits, _ or -";

const NEW_NAME: &str = "a name that no handler has yet";

const DECLARED: &str = "a handler that with or then declares above";

// The last place of a record of fields that may all stand there.
fn end_of(count: usize) -> Place {
    end(count.saturating_add(1), "the end of the record")
}

fn ring_place(row: &ByteRecord) -> Place {
    if !is_number(row, 2) {
        number(2, SIZE)
    } else if field(row, 2) == b"single".as_slice() {
        end(4, "the end of ring,SIZE,single")
    } else if field(row, 2) != b"multi".as_slice() {
        word(3, "single or multi")
    } else if !is_number(row, 4) {
        number(4, PRODUCERS)
    } else {
        end(5, "the end of ring,SIZE,multi,P")
    }
}

// Names from field 2 on, as many as these; or at least one, where the record is a list.
fn name_place(row: &ByteRecord, count: usize) -> Place {
    let fields = count_of(row);
    if fields <= count {
        other(fields.saturating_add(1), NAME)
    } else {
        end_of(count.saturating_add(1))
    }
}

fn setup_place(row: &ByteRecord, may_limit: bool) -> Place {
    if is_named(row, b"limit".as_slice()) && may_limit {
        if is_number(row, 2) {
            end_of(2)
        } else {
            number(2, LIMIT)
        }
    } else if is_named(row, b"with".as_slice())
        || is_named(row, b"then".as_slice())
        || is_named(row, b"after".as_slice())
    {
        other(2, NAME)
    } else if is_named(row, b"edge".as_slice()) {
        name_place(row, 2)
    } else if is_named(row, b"start".as_slice()) {
        end_of(1)
    } else if may_limit {
        word(1, "limit, with, then, after, edge or start")
    } else {
        word(1, "with, then, after, edge or start")
    }
}

// The first of these fields at which no number stands, or else the place after them.
fn numbers_place(row: &ByteRecord, first: usize, last: usize) -> Place {
    for at in first..=last {
        if !is_number(row, at) {
            return number(at, NUMBER);
        }
    }
    end_of(last)
}

fn command_place(row: &ByteRecord) -> Place {
    if is_named(row, b"claim".as_slice()) {
        numbers_place(row, 2, 3)
    } else if is_named(row, b"write".as_slice()) {
        numbers_place(row, 2, count_of(row).clamp(4, 5))
    } else if is_named(row, b"publish".as_slice()) {
        numbers_place(row, 2, 4)
    } else if is_named(row, b"poll".as_slice()) || is_named(row, b"complete".as_slice()) {
        if count_of(row) == 1 {
            other(2, NAME)
        } else {
            numbers_place(row, 3, 3)
        }
    } else if is_named(row, b"halt".as_slice()) {
        end_of(1)
    } else if is_named(row, b"retire".as_slice()) {
        name_place(row, 1)
    } else {
        word(1, "claim, write, publish, poll, complete, halt or retire")
    }
}

fn bad_place(row: &ByteRecord, before: &Before) -> Place {
    if before.has_started {
        command_place(row)
    } else if before.count == 0 {
        ring_place(row)
    } else {
        setup_place(row, before.count == 1)
    }
}

// Whether a name may be a handler's, by its bytes.
fn are_name_bytes(name: &[u8]) -> bool {
    for byte in name {
        if !byte.is_ascii_alphanumeric() && *byte != b'_' && *byte != b'-' {
            return false;
        }
    }
    true
}

fn bad_name_place(row: &ByteRecord) -> Place {
    for at in 1..count_of(row) {
        let name = field(row, at);
        if name.is_empty() || name.len() > 32 || !are_name_bytes(name) {
            return other(at.saturating_add(1), NAME);
        }
    }
    other(2, NAME)
}

// The first field whose name is declared, or stands in an earlier field.
fn duplicate_place(
    alloc: Global,
    row: &ByteRecord,
    declared: &IndexSet<String>,
) -> Result<Place, AllocError> {
    let mut earlier = IndexSet::new(alloc);
    for at in 1..count_of(row) {
        let name = text_of(field(row, at));
        let is_new = earlier.insert(String::from_str(alloc, name)?)?;
        if declared.contains(name) || !is_new {
            return Ok(other(at.saturating_add(1), NEW_NAME));
        }
    }
    Ok(other(2, NEW_NAME))
}

fn stranger_place(row: &ByteRecord, declared: &IndexSet<String>) -> Place {
    for at in 1..count_of(row) {
        if !declared.contains(text_of(field(row, at))) {
            return other(at.saturating_add(1), DECLARED);
        }
    }
    other(2, DECLARED)
}

fn graph_place(
    alloc: Global,
    row: &ByteRecord,
    declared: &IndexSet<String>,
    fault: GraphFault,
) -> Result<Place, AllocError> {
    match fault {
        GraphFault::BadName => Ok(bad_name_place(row)),
        GraphFault::Duplicate => duplicate_place(alloc, row, declared),
        GraphFault::Stranger => Ok(stranger_place(row, declared)),
        GraphFault::TooMany => Ok(end(
            18usize.saturating_sub(declared.len()),
            "the end of the record, since a graph has 16 handlers at most",
        )),
        GraphFault::Cycle => Ok(other(1, "edges by which no handler comes before itself")),
        _ => Ok(other(1, "a handler, which with declares")),
    }
}

/// The place at which a record of a command file is at fault by a cause, after others that are not.
pub fn drive_place(
    alloc: Global,
    row: &ByteRecord,
    before: &Before,
    cause: Cause,
) -> Result<Place, AllocError> {
    match cause {
        Cause::NoRing => Ok(word(1, "ring")),
        Cause::BadRecord => Ok(bad_place(row, before)),
        Cause::BadSize => Ok(number(2, SIZE)),
        Cause::BadProducers => Ok(number(4, PRODUCERS)),
        Cause::BadLimit => Ok(number(2, LIMIT)),
        Cause::NoGroup => Ok(other(1, "a group to follow, which with or after names")),
        Cause::Graph(fault) => graph_place(alloc, row, &before.names, fault),
        Cause::NoStart => Ok(word(1, "start")),
    }
}
