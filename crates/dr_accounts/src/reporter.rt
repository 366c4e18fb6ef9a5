//! Handlers that have a part in the report.

ghost use Rattle.std.specs.Prelude.{◌≡◌, ℕ, [], Bool, false, List, IfOk, string_bytes};
ghost use Rattle.dr_seq.specs.declared.event.Event.{Event};
ghost use Rattle.dr_meaning.specs.Calls.Handling.{GoesThrough};
ghost use Rattle.dr_workers.specs.Meaning.Work.{Dealt, dealt_events, shown_of};

use crate::business::Business;
use crate::journal::Journal;
use crate::replica::Replica;
use dr_meaning::Handler;
use dr_seq::Event;
use std::alloc::{AllocError, Global};

/// A handler that has a part in the report of the events that it was shown.
pub trait Reporter: Handler<Event> + Drop {
    /// The part of a list of events.
    ghost part_of: { List Event → List ℕ };

    /// It was shown nothing yet.
    ghost is_new: { Self → Type 0 };

    /// It found no memory for an event.
    ghost failed: { Self → Bool };

    /// One that was shown nothing yet.
    fn begin(alloc: Global) -> Self
        // It was shown nothing yet, and did not fail.
        ensures new { is_new result }
        ensures well { failed result ≡ false };

    /// Whether it found no memory for an event.
    fn has_failed(&self) -> bool
        ensures { result ≡ failed self.now };

    /// Its part of the report. An error is that memory ran out.
    fn into_part(self, alloc: Global) -> Result<String, AllocError>
        requires { failed self ≡ false }
        // If it went from a new one through batches, the text is its part of all their events.
        ensures { (first : Self) (batches : List (Dealt Event)) → is_new first → GoesThrough Self.goes first (shown_of batches) self → IfOk result (λ text. string_bytes text ≡ part_of (dealt_events batches)) };
}

/// The part of a handler alone. An error is that memory ran out, here or when an event was handled.
pub fn part<H: Reporter>(handler: H, alloc: Global) -> Result<String, AllocError>
    // If it went from a new one through batches, the text is its part of all their events.
    ensures text { (first : H) (batches : List (Dealt Event)) → H.is_new first → GoesThrough H.goes first (shown_of batches) handler → IfOk result (λ text. string_bytes text ≡ H.part_of (dealt_events batches)) }
    // One that failed gives no text.
    ensures well { IfOk result (λ text. H.failed handler ≡ false) }
{
    if handler.has_failed() {
        return Err(AllocError);
    }
    handler.into_part(alloc)
}

impl Reporter for Journal {
    ghost use Rattle.dr_accounts.specs.Handlers.{IsJournalOf};
    ghost use Rattle.dr_accounts.specs.Report.{journal_part};

    ghost part_of = { journal_part };

    ghost is_new = { λ j. IsJournalOf j [] };

    ghost failed = { λ j. j.failed };

    fn begin(alloc: Global) -> Journal {
        Journal::new(alloc)
    }

    fn has_failed(&self) -> bool {
        self.is_failed()
    }

    fn into_part(self, alloc: Global) -> Result<String, AllocError> {
        self.into_text(alloc)
    }
}

impl Reporter for Replica {
    ghost use Rattle.dr_accounts.specs.Handlers.{IsReplicaOf};
    ghost use Rattle.dr_accounts.specs.Report.{replica_part};

    ghost part_of = { replica_part };

    ghost is_new = { λ r. IsReplicaOf r [] };

    ghost failed = { λ r. r.failed };

    fn begin(alloc: Global) -> Replica {
        Replica::new(alloc)
    }

    fn has_failed(&self) -> bool {
        self.is_failed()
    }

    fn into_part(self, alloc: Global) -> Result<String, AllocError> {
        self.into_text(alloc)
    }
}

impl Reporter for Business {
    ghost use Rattle.dr_accounts.specs.Handlers.{IsBusinessOf};
    ghost use Rattle.dr_accounts.specs.Report.{business_part};

    ghost part_of = { business_part };

    ghost is_new = { λ b. IsBusinessOf b [] };

    ghost failed = { λ b. b.failed };

    fn begin(alloc: Global) -> Business {
        Business::new(alloc)
    }

    fn has_failed(&self) -> bool {
        self.is_failed()
    }

    fn into_part(self, alloc: Global) -> Result<String, AllocError> {
        self.into_text(alloc)
    }
}
