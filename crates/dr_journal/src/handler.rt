//! The handler that journals: each batch is on the disk before its last event is handled, and so
//! before a worker that shows a whole batch completes it.

ghost use Rattle.std.specs.Prelude.{◌≡◌, ◌<◌, ◌++◌, ◌∷◌, [], true, false, OnOk, None, Some, IsErrOf};
ghost use Rattle.dr_journal.specs.declared.fault.JournalFault.TheVariants.{NoMemory, Failed, Full};
ghost use Rattle.dr_journal.specs.Calls.Journals.{IsAtRest, IsBeforeOrAfter, IsTooLarge, CrashLeaves, bytes_of, file_of, records_of, faults_of};

use crate::{AsRecord, Device, Journal, JournalFault};
use dr_meaning::InPlaceHandler;
use std::alloc::{AllocError, Global};

/// Writes what it is shown, each batch at the event that is marked as its end. Once the disk, memory
/// or room has failed it, it does nothing more, and says so: an event after that is not in the
/// journal.
#[derive(Drop)]
pub struct Journaling<D: Device> {
    alloc: Global,
    journal: Journal<D>,
    // The records of the batch whose end was not shown yet.
    waiting: Vec<Vec<u8>>,
    fault: Option<JournalFault>,
    ghost at_rest: { fault ≡ None → IsAtRest D.seen D.may_leave journal },
}

impl<D: Device> Journaling<D> {
    ghost use Rattle.dr_journal.specs.Calls.Handling.{Writer};
    ghost use Rattle.dr_journal.specs.Calls.Writers.{writer_of};

    /// A handler that goes on from a journal.
    pub fn new(alloc: Global, journal: Journal<D>) -> Journaling<D>
        requires { IsAtRest D.seen D.may_leave journal }
        ensures { writer_of result ≡ record { journal = journal; waiting = []; fault = None } }
    {
        Journaling {
            alloc,
            journal,
            waiting: Vec::new(alloc),
            fault: None,
        }
    }

    /// What it failed with, once it has.
    pub fn fault(&self) -> Option<JournalFault>
        ensures { result ≡ (writer_of self.now).fault }
    {
        self.fault
    }

    /// The records of the batch whose end it was not shown yet: they are in no file.
    pub fn waiting(&self) -> &[Vec<u8>]
        ensures { bytes_of result.now ≡ (writer_of self.now).waiting }
    {
        &self.waiting
    }

    /// Its journal, which is at rest unless the handler has failed: then [`InPlaceHandler::goes`] says
    /// how it is, at rest too where memory or room was short. What [waits](Journaling::waiting) is dropped.
    pub fn into_journal(self) -> Journal<D>
        // It is the handler's journal, as it is.
        ensures value { result ≡ (writer_of self).journal }
        // It is at rest, if the handler has not failed.
        ensures at_rest { (writer_of self).fault ≡ None → IsAtRest D.seen D.may_leave result }
    {
        self.journal
    }
}

// Adds an event's record to a batch.
fn push_event<E: AsRecord>(
    alloc: Global,
    batch: &mut Vec<Vec<u8>>,
    event: &E,
) -> Result<(), AllocError>
    ensures added { OnOk result (bytes_of batch.new.items ≡ bytes_of batch.old.items ++ E.record_of (E.value event.now) ∷ []) }
    ensures comes_back { OnOk result (E.value_in (E.record_of (E.value event.now)) ≡ Some (E.value event.now)) }
{
    let mut bytes = Vec::new(alloc);
    event.push_record(&mut bytes)?;
    batch.push(bytes)?;
    Ok(())
}

// Takes an event, and at the end of a batch writes the batch.
fn take_event<D: Device, E: AsRecord>(
    alloc: Global,
    journal: &mut Journal<D>,
    waiting: &mut Vec<Vec<u8>>,
    event: &E,
    end: bool,
) -> Result<(), JournalFault>
    requires { IsAtRest D.seen D.may_leave journal.old }
    ensures at_rest { OnOk result (IsAtRest D.seen D.may_leave journal.new) }
    ensures told { OnOk result (records_of D.seen journal.new ++ bytes_of waiting.new.items ≡ records_of D.seen journal.old ++ (bytes_of waiting.old.items ++ E.record_of (E.value event.now) ∷ [])) }
    ensures end { OnOk result (end ≡ true → waiting.new.items ≡ []) }
    ensures waits { end ≡ false → journal.new ≡ journal.old }
    ensures comes_back { OnOk result (E.value_in (E.record_of (E.value event.now)) ≡ Some (E.value event.now)) }
    ensures any_moment { CrashLeaves D.moment D.left_since journal.old journal.new (IsBeforeOrAfter (records_of D.seen journal.old) (bytes_of waiting.old.items ++ E.record_of (E.value event.now) ∷ [])) }
    ensures no_memory { IsErrOf result NoMemory → IsAtRest D.seen D.may_leave journal.new × (records_of D.seen journal.new ≡ records_of D.seen journal.old) }
    ensures no_room { IsErrOf result Full → IsAtRest D.seen D.may_leave journal.new × (records_of D.seen journal.new ≡ records_of D.seen journal.old) }
    ensures failed { IsErrOf result Failed → faults_of D.faults journal.old < faults_of D.faults journal.new }
    ensures full { IsErrOf result Full → IsTooLarge (file_of D.seen journal.old) (bytes_of waiting.old.items ++ E.record_of (E.value event.now) ∷ []) }
{
    push_event(alloc, waiting, event)?;
    if !end {
        return Ok(());
    }
    journal.append(alloc, waiting.as_slice())?;
    waiting.clear();
    Ok(())
}

impl<D: Device, E: AsRecord> InPlaceHandler<E> for Journaling<D> {
    ghost use Rattle.dr_journal.specs.Calls.Handling.{Journals};
    ghost use Rattle.dr_journal.specs.Calls.Writers.{writer_of};

    ghost goes = { λ old event s end new. Journals D.seen D.may_leave D.moment D.left_since D.faults (writer_of old) (E.record_of (E.value event)) end (writer_of new) × ((writer_of new).fault ≡ None → E.value_in (E.record_of (E.value event)) ≡ Some (E.value event)) };

    fn on_event_in_place(&mut self, event: &E, _s: u64, end: bool) {
        if self.fault.is_some() {
            return;
        }
        match take_event(self.alloc, &mut self.journal, &mut self.waiting, event, end) {
            Ok(()) => (),
            Err(fault) => self.fault = Some(fault),
        }
    }
}
