//! The records of a stream, as its bytes come.

ghost use Rattle.std.specs.Prelude.{◌≡◌, ℕ, List, [], false, true, IfOk, OnOk};
ghost use Rattle.csv.specs.Machine.{field_after, fields_after, is_end as is_end_in};
ghost use Rattle.csv.specs.Records.{fields_of, partial_of};
ghost use Rattle.dr_records.specs.Records.{records_of};
ghost use Rattle.dr_records.specs.Resuming.{action_of, is_first, mark_at};

use crate::place::{Action, Place, ends_mark, is_end, is_open, step};
use csv::ByteRecord;
use std::alloc::{AllocError, Global};
use std::mem;

/// Reads the records of a stream, as [`Rows`](crate::Rows) reads those of a text, but a byte at a
/// time: it holds the record that it read last and what came of the next, and nothing else. Once
/// memory ran out it is at no known place, and of no more use.
#[derive(Drop)]
pub struct Stream {
    place: Place,
    // What came of the field at hand.
    field: Vec<u8>,
    // The fields before it.
    row: ByteRecord,
    // The record that was read last.
    last: ByteRecord,
    ghost whole: { partial_of row ≡ [] },
    ghost fields: { is_first place ≡ true → fields_of row ≡ [] },
    ghost mark: { is_first place ≡ true → field.items ≡ mark_at place },
}

// Ends the field at hand. Without memory for it no field is left.
fn end_field(row: &mut ByteRecord, field: &mut Vec<u8>) -> Result<(), AllocError>
    requires { partial_of row.old ≡ [] }
    ensures fields { OnOk result (fields_of row.new ≡ fields_after (action_of Action.EndField) (fields_of row.old) field.old.items) }
    ensures field { OnOk result (field.new.items ≡ []) }
    ensures whole { partial_of row.new ≡ [] }
{
    if row.push_field(field.as_slice()).is_err() {
        row.clear();
        return Err(AllocError);
    }
    field.clear();
    Ok(())
}

// Ends the record at hand, which is then the last one that was read.
fn end_record(
    row: &mut ByteRecord,
    last: &mut ByteRecord,
    field: &mut Vec<u8>,
) -> Result<(), AllocError>
    requires { partial_of row.old ≡ [] }
    ensures last { OnOk result (fields_of last.new ≡ fields_after (action_of Action.EndRecord) (fields_of row.old) field.old.items) }
    ensures row { OnOk result (fields_of row.new ≡ []) }
    ensures field { OnOk result (field.new.items ≡ []) }
    ensures whole { partial_of row.new ≡ [] }
{
    end_field(row, field)?;
    mem::swap(row, last);
    row.clear();
    Ok(())
}

// Does with a byte that ends no record what csv does.
fn go_on(
    row: &mut ByteRecord,
    field: &mut Vec<u8>,
    byte: u8,
    action: Action,
) -> Result<(), AllocError>
    requires whole { partial_of row.old ≡ [] }
    requires on { is_end_in (action_of action) ≡ false }
    ensures fields { OnOk result (fields_of row.new ≡ fields_after (action_of action) (fields_of row.old) field.old.items) }
    ensures field { OnOk result (field.new.items ≡ field_after (action_of action) byte field.old.items) }
    ensures whole { partial_of row.new ≡ [] }
{
    match action {
        Action::Skip => Ok(()),
        Action::Copy => {
            field.push(byte)?;
            Ok(())
        }
        _ => end_field(row, field),
    }
}

impl Stream {
    ghost use Rattle.dr_records.specs.Stream.{Ends, Takes, record_in, records_to_come};

    /// A stream of which no byte came yet.
    pub fn new(alloc: Global) -> Stream
        ensures { (text : List ℕ) → records_to_come result text ≡ records_of text }
    {
        Stream {
            place: Place::Start,
            field: Vec::new(alloc),
            row: ByteRecord::new(alloc),
            last: ByteRecord::new(alloc),
        }
    }

    /// Takes the next byte, and answers whether it ended a record, which is then [`Stream::last`].
    /// An error is that memory ran out.
    pub fn take(&mut self, byte: u8) -> Result<bool, AllocError>
        ensures { IfOk result (λ found. Takes byte self.old self.new found) }
    {
        if ends_mark(self.place, byte) {
            self.place = Place::StartRecord;
            self.field.clear();
            return Ok(false);
        }
        let (place, action) = step(self.place, byte);
        self.place = Place::StartRecord;
        if is_end(action) {
            end_record(&mut self.row, &mut self.last, &mut self.field)?;
            return Ok(true);
        }
        go_on(&mut self.row, &mut self.field, byte, action)?;
        self.place = place;
        Ok(false)
    }

    /// Ends the stream, and answers whether that ended a record: the last one needs no line's end.
    /// An error is that memory ran out.
    pub fn end(&mut self) -> Result<bool, AllocError>
        ensures { IfOk result (λ found. Ends self.old self.new found) }
    {
        if is_open(self.place) {
            self.place = Place::StartRecord;
            end_record(&mut self.row, &mut self.last, &mut self.field)?;
            return Ok(true);
        }
        Ok(false)
    }

    /// The record that was read last.
    pub fn last(&self) -> &ByteRecord
        ensures { fields_of result.now ≡ record_in self.now }
    {
        &self.last
    }
}
