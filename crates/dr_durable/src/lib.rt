//! A journal in a run: what is on the disk when a batch is completed, and after the run.
//!
//! In a run whose way bounds no batch, each batch of the handler [`Journaling`](dr_journal::Journaling) ends with a mark, at
//! which it syncs. Its worker completes the batch only after that: so whoever follows it in the graph is shown no event that
//! is not on the disk, as long as the handler has not failed.
#![tactic(auto)]

ghost use Rattle.std.specs.Prelude.{◌≡◌, ℕ, ◌≤◌, ◌++◌, List, length, map, None};
ghost use Rattle.dr_workers.specs.Meaning.Work.{Dealt};
ghost use Rattle.dr_disruptor.specs.Handlers.{WentThrough};
ghost use Rattle.dr_journal.specs.Calls.Records.{AreValues};
ghost use Rattle.dr_journal.specs.Calls.Writers.{writer_of};
ghost use Rattle.dr_durable.specs.Storing.{HadStored, IsFresh, Stores};

use dr_disruptor::InPlaceHandler;
use dr_journal::{AsRecord, Device, Journaling};

/// What a run says of its handler that journals: after the run, and where each batch may have as many events as the run
/// has, at each completion. That is so of [`Way::by`](dr_disruptor::Way::by), since a ring has fewer than 2^64 sequences.
pub fn what_a_run_stores<D: Device, E: AsRecord>()
    // A handler that has not failed has stored all events of the run, and each reads back as it was.
    ensures all { (most : ℕ) (start after : _) (events : List E) → WentThrough ⟦<Journaling<D> as InPlaceHandler<E>>⟧.goes most start after events → IsFresh D.seen D.may_leave (writer_of start) → (writer_of after).fault ≡ None → Stores D.seen D.may_leave (writer_of start).journal (writer_of after).journal (map (λ event. E.record_of (E.value event)) events) × AreValues E.value_in (map (λ event. E.record_of (E.value event)) events) (map E.value events) }
    // Where no batch is bounded, it had so when it completed the first of its batches, however the run went on.
    ensures at_each_completion { (most : ℕ) (start after : _) (events : List E) → (went : WentThrough ⟦<Journaling<D> as InPlaceHandler<E>>⟧.goes most start after events) → length events ≤ most → IsFresh D.seen D.may_leave (writer_of start) → (front rest : List (Dealt E)) → went.batches ≡ front ++ rest → HadStored D.seen D.may_leave D.moment D.left_since writer_of (λ event. E.record_of (E.value event)) ⟦<Journaling<D> as InPlaceHandler<E>>⟧.goes start after front rest }
{}
