//! Events as records, and back.

ghost use Rattle.std.specs.Prelude.{◌≡◌, ◌++◌, List, ℕ, Option, Some, map, IfOk, IfErr, OnOk};
ghost use Rattle.std.specs.Option.{option_map};
ghost use Rattle.dr_journal.specs.declared.record.RecordFault.TheVariants.{NoMemory, BadRecord};
ghost use Rattle.dr_journal.specs.Calls.Journals.{bytes_of};
ghost use Rattle.dr_journal.specs.Calls.Records.{AreValues, IsFirstBad};

use std::alloc::{AllocError, AllocFailed, Global};

/// An event that a journal can keep: one that is written as the bytes of a record, and read back
/// from them.
pub trait AsRecord {
    /// What an event says, apart from where it lies.
    ghost Value: { Type 0 };

    ghost value: { Self → Self.Value };

    /// The record of a value.
    ghost record_of: { Self.Value → List ℕ };

    /// The value of a record, if it is one of these events'.
    ghost value_in: { List ℕ → Option Self.Value };

    /// Appends the event's record. What is written comes back as it was.
    fn push_record(&self, out: &mut Vec<u8>) -> Result<(), AllocError>
        // At `Ok` the event's record stands behind the bytes that were there.
        ensures written { OnOk result (out.new.items ≡ out.old.items ++ record_of (value self.now)) }
        // At `Ok` that record is read back as what the event says.
        ensures comes_back { OnOk result (value_in (record_of (value self.now)) ≡ Some (value self.now)) };

    /// The event of a record, or none where these bytes are no event's.
    fn from_record(alloc: Global, bytes: &[u8]) -> Result<Option<Self>, AllocError>
    where
        Self: Sized,
        ensures { IfOk result (λ event. option_map value event ≡ value_in bytes.now) };
}

/// Why records are not read as events.
#[derive(Clone, Copy, Debug, PartialEq, Eq)]
pub enum RecordFault {
    /// An allocation failed.
    NoMemory,
    /// The record of this place, counted from 0, is no event's: the first such.
    BadRecord(usize),
}

impl From<AllocError> for RecordFault {
    ghost from_gives = { λ _ fault. fault ≡ NoMemory };

    fn from(_: AllocError) -> RecordFault {
        RecordFault::NoMemory
    }
}

impl<T: Drop> From<AllocFailed<T>> for RecordFault {
    ghost from_gives = { λ _ fault. fault ≡ NoMemory };

    fn from(_: AllocFailed<T>) -> RecordFault {
        RecordFault::NoMemory
    }
}

/// The events of records, in order, as [`recover`](crate::recover) gives these.
pub fn read_events<E: AsRecord + Drop>(
    alloc: Global,
    records: &[Vec<u8>],
) -> Result<Vec<E>, RecordFault>
    // At `Ok` there is an event for each record, in order, which says what that record says.
    ensures events { IfOk result (λ events. AreValues E.value_in (bytes_of records.now) (map E.value events.items)) }
    // `BadRecord` tells the place, counted from 0, of the first record that is no event's.
    ensures bad { IfErr result (λ fault. (n : ℕ) → fault ≡ BadRecord n → IsFirstBad E.value_in (bytes_of records.now) n) }
{
    let mut events = Vec::new(alloc);
    for (n, bytes) in records.iter().enumerate() {
        match E::from_record(alloc, bytes.as_slice())? {
            Some(event) => events.push(event)?,
            None => return Err(RecordFault::BadRecord(n)),
        }
    }
    Ok(events)
}
