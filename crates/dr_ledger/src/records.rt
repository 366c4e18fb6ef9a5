//! Operations as records of a journal.

ghost use Rattle.std.specs.Prelude.{◌≡◌, ◌++◌, List, ℕ, length, IfErr, IfOk, Some};
ghost use Rattle.dr_seq.specs.declared.event.Event.{Event};
ghost use Rattle.dr_journal.specs.Calls.Journals.{bytes_of};
ghost use Rattle.dr_journal.specs.Calls.Records.{event_in};
ghost use Rattle.dr_ledger.specs.Standing.{Say};
ghost use Rattle.dr_ledger.specs.Starting.{IsOfRecords, TellsRecords};

use crate::LedgerFault;
use dr_journal::{AsRecord, RecordFault, read_events};
use dr_seq::Event;
use std::alloc::{AllocError, Global};

fn record_of(alloc: Global, event: Event) -> Result<Vec<u8>, AllocError>
    ensures { IfOk result (λ bytes. event_in bytes.items ≡ Some event) }
{
    let mut bytes = Vec::new(alloc);
    event.push_record(&mut bytes)?;
    Ok(bytes)
}

/// The records of a batch of operations.
pub(crate) fn records_of(alloc: Global, events: &[Event]) -> Result<Vec<Vec<u8>>, AllocError>
    ensures { IfOk result (λ records. Say (bytes_of records.items) events.now) }
{
    let mut records = Vec::with_capacity(alloc, events.len())?;
    for event in events {
        records.push(record_of(alloc, *event)?)?;
    }
    Ok(records)
}

/// What records of a journal say, which come behind so many others there.
pub(crate) fn read_behind(
    alloc: Global,
    records: &[Vec<u8>],
    count: u64,
) -> Result<Vec<Event>, LedgerFault>
    ensures said { IfOk result (λ events. Say (bytes_of records.now) events.items) }
    ensures of_records { IfErr result IsOfRecords }
    ensures bad { (before : List (List ℕ)) (past : List Event) → Say before past → length past ≡ count → IfErr result (λ fault. TellsRecords fault (before ++ bytes_of records.now)) }
{
    match read_events(alloc, records) {
        Ok(events) => Ok(events),
        Err(RecordFault::NoMemory) => Err(LedgerFault::Memory),
        Err(RecordFault::BadRecord(n)) => Err(LedgerFault::BadRecord(
            count.saturating_add(n as u64).saturating_add(1),
        )),
    }
}

/// What all records of a journal say.
pub(crate) fn read(alloc: Global, records: &[Vec<u8>]) -> Result<Vec<Event>, LedgerFault>
    ensures said { IfOk result (λ events. Say (bytes_of records.now) events.items) }
    ensures bad { IfErr result (λ fault. TellsRecords fault (bytes_of records.now)) }
{
    read_behind(alloc, records, 0)
}
