//! What the contracts of a run say.

ghost use Rattle.std.specs.Prelude.{◌≡◌, ◌≢◌, ◌↔◌, ◌∷◌, [], ℕ, ◌+◌, ◌-◌, ◌≤◌, All, IsTrue, List, Some, false, length, map, min};
ghost use Rattle.std.specs.Fn.{FnOnceReturnsAtMut};
ghost use denote.RawPtr.{Ptr};
ghost use mathlib.Core.Option.{some};
ghost use lib.ListN.{get_elem?};
ghost use Rattle.dr_meaning.specs.declared.refusal.Refusal.{Refusal};
ghost use Rattle.dr_meaning.specs.declared.refusal.Refusal.TheVariants.{Halted};
ghost use Rattle.dr_meaning.specs.Calls.Handling.{GoesThrough};
ghost use Rattle.dr_meaning.specs.Meaning.Laws.{Laws};
ghost use Rattle.dr_runs.specs.OneSender.Words.{halt_word};
ghost use Rattle.dr_workers.specs.Meaning.Work.{FollowFrom, dealt_events, shown_of};
ghost use Rattle.dr_plain.specs.Calls.Ends.{ReceiverEnd, SenderEnd, receiver_place, received_of, sender_place};
ghost use Rattle.dr_plain.specs.Calls.InPlace.{does_in_place, sending_of, sends_in_place};
ghost use Rattle.dr_plain.specs.Calls.Making.{receiver_at_ring};
ghost use Rattle.dr_plain.specs.Calls.Settling.{HasRun};
ghost use Rattle.dr_plain.specs.Meaning.Moments.{fresh_receiver, fresh_sender};
ghost use Rattle.dr_plain.specs.Meaning.Records.{claimed, seen_before};
ghost use Rattle.dr_lent.specs.Events.{events_of};
ghost use Rattle.dr_plain.specs.Meaning.Shape.{Shape, ring_setup};
ghost use Rattle.dr_disruptor.specs.Handlers.{WentThrough};
ghost use Rattle.dr_disruptor.specs.Running.{IsOutcomeBy};
ghost use Rattle.dr_disruptor.specs.Sending.{IsRefused, OnlyCalled};
ghost use Rattle.dr_disruptor.specs.Serving.{IsMarked, TakesInTurn};
ghost use Rattle.dr_disruptor.specs.declared.one_of.OneOf.TheVariants.{First, Second};
ghost use Rattle.dr_disruptor.specs.declared.running.RunOutcome.{RunOutcome};
ghost use Rattle.dr_plain.specs.declared.settled.Settled.{Settled};
ghost use Rattle.std.specs.Global.{Vec};

use crate::running::RunOutcome;
use crate::sender::LiveSender;
use crate::team::Team;
use dr_meaning::InPlaceHandler;
use dr_plain::{Sender, Settled};

/// What the clause `ran` of [`run`](crate::run) says of the ring, its sender and its handlers.
pub fn what_a_run_says<
    R,
    E,
    H: InPlaceHandler<E> + Drop + Send + 'static,
    T: Team<E, One = H>,
    A,
    F: FnOnce(&mut LiveSender<R, Sender<E>>) -> A,
>()
    // The closure was given the sender of a new ring of this shape, with your events in its cells, and the sender that it left is that ring's.
    ensures begins { (send : F) (most : ℕ) (shape : Ptr → Shape) (events : List E) (handlers : T) (ran : RunOutcome E T (Settled E) A) → (is : IsOutcomeBy (FnOnceReturnsAtMut F.FnOnce send) (λ sender. sender) H.goes T.listed T.went most shape events handlers ran) → (is.given.knows ≡ fresh_sender (shape is.strip)) × (is.given.cells ≡ map (λ event. Some event) events) × FnOnceReturnsAtMut F.FnOnce send is.given ran.sent is.back × (sender_place is.back ≡ (is.given.ring, shape is.strip)) }
    // The handler at a place of the graph came back at it, and went through just what the receiver of that place took: its
    // worker polled that receiver, which was new, with room for so many, and completed each batch once, before the next poll.
    ensures serves { (send : F) (most : ℕ) (shape : Ptr → Shape) (events : List E) (handlers : T) (ran : RunOutcome E T (Settled E) A) → (is : IsOutcomeBy (FnOnceReturnsAtMut F.FnOnce send) (λ sender. sender) H.goes T.listed T.went most shape events handlers ran) → (h : ℕ) (start : H) → get_elem? (T.listed handlers) h ≡ some start → (after : H) × (end : ReceiverEnd E) × (get_elem? (T.listed ran.handlers) h ≡ some after) × (get_elem? ran.settled.receivers.value.items h ≡ some end) × (receiver_place end ≡ (is.given.ring, shape is.strip, h)) × ((went : WentThrough H.goes most start after (received_of end.knows).events) × TakesInTurn does_in_place most went.batches (receiver_at_ring is.given.ring (fresh_receiver (shape is.strip) h)) end) }
    // All went through what the closure left published.
    ensures goes { (send : F) (most : ℕ) (shape : Ptr → Shape) (events : List E) (handlers : T) (ran : RunOutcome E T (Settled E) A) → (is : IsOutcomeBy (FnOnceReturnsAtMut F.FnOnce send) (λ sender. sender) H.goes T.listed T.went most shape events handlers ran) → T.went most (events_of is.back.knows.published) handlers ran.handlers }
{}

/// What the clause `ran` of [`run`](crate::run) says of the counts and events that came back.
pub fn what_a_settled_run_says<
    R,
    E,
    H: InPlaceHandler<E> + Drop + Send + 'static,
    T: Team<E, One = H>,
    A,
    F: FnOnce(&mut LiveSender<R, Sender<E>>) -> A,
>()
    // Each receiver took and completed all that was published, and so it is counted.
    ensures completes { (send : F) (most : ℕ) (shape : Ptr → Shape) (events : List E) (handlers : T) (ran : RunOutcome E T (Settled E) A) → (is : IsOutcomeBy (FnOnceReturnsAtMut F.FnOnce send) (λ sender. sender) H.goes T.listed T.went most shape events handlers ran) → (h : ℕ) (end : ReceiverEnd E) → get_elem? ran.settled.receivers.value.items h ≡ some end → ((received_of end.knows).events ≡ events_of is.back.knows.published) × (end.knows.completed ≡ ran.settled.published) × (get_elem? ran.settled.handlers.items h ≡ some (record { taken = ran.settled.published; completed = ran.settled.published })) }
    // As many events are counted as were published, as many sequences as the sender claimed, and each receiver.
    ensures counts { (send : F) (most : ℕ) (shape : Ptr → Shape) (events : List E) (handlers : T) (ran : RunOutcome E T (Settled E) A) → (is : IsOutcomeBy (FnOnceReturnsAtMut F.FnOnce send) (λ sender. sender) H.goes T.listed T.went most shape events handlers ran) → (ran.settled.published ≡ length is.back.knows.published) × (ran.settled.claimed ≡ claimed ran.settled.sender.value.knows) × (length ran.settled.handlers.items ≡ length ran.settled.receivers.value.items) }
    // The ring's halter never halted it, and the sender found no halt before its own.
    ensures unhalted { (send : F) (most : ℕ) (shape : Ptr → Shape) (events : List E) (handlers : T) (ran : RunOutcome E T (Settled E) A) → (is : IsOutcomeBy (FnOnceReturnsAtMut F.FnOnce send) (λ sender. sender) H.goes T.listed T.went most shape events handlers ran) → (ran.settled.halter.value.knows.halted ≡ false) × All (λ look. look.word ≡ halt_word → look.value ≡ 0) (seen_before ran.settled.sender.value.knows) }
    // So a send of the closure's is not refused with `Halted`, where nothing but calls of its sender came before it and after.
    ensures unrefused { (send : F) (most : ℕ) (shape : Ptr → Shape) (events : List E) (handlers : T) (ran : RunOutcome E T (Settled E) A) → (is : IsOutcomeBy (FnOnceReturnsAtMut F.FnOnce send) (λ sender. sender) H.goes T.listed T.went most shape events handlers ran) → (n : ℕ) (r : Refusal) (old new : SenderEnd E) → OnlyCalled sends_in_place is.given old → IsRefused sender_place sending_of sends_in_place n r old new → OnlyCalled sends_in_place new is.back → r ≢ Halted }
    // One run of that ring came to these ends, and its transcript has the five laws.
    ensures runs { (send : F) (most : ℕ) (shape : Ptr → Shape) (events : List E) (handlers : T) (ran : RunOutcome E T (Settled E) A) → (is : IsOutcomeBy (FnOnceReturnsAtMut F.FnOnce send) (λ sender. sender) H.goes T.listed T.went most shape events handlers ran) → (run : HasRun ran.settled.sender.value ran.settled.receivers.value.items ran.settled.halter.value) × Laws (ring_setup (shape is.strip)) run.entries }
    // The events are what lay in the ring's cells at last.
    ensures events { (send : F) (most : ℕ) (shape : Ptr → Shape) (events : List E) (handlers : T) (ran : RunOutcome E T (Settled E) A) → (is : IsOutcomeBy (FnOnceReturnsAtMut F.FnOnce send) (λ sender. sender) H.goes T.listed T.went most shape events handlers ran) → map (λ event. Some event) ran.events ≡ ran.settled.sender.value.cells }
{}

/// What a run's contract says of one handler: which batches of the events it was shown.
pub fn what_a_handler_went_through_says<E, H: InPlaceHandler<E>>()
    // It was shown batches of these events, each event once, in sequence order from 0 on.
    ensures goes { (most : ℕ) (start after : H) (events : List E) → (is : WentThrough H.goes most start after events) → GoesThrough H.goes start (shown_of is.batches) after × FollowFrom 0 is.batches × (dealt_events is.batches ≡ events) }
    // Each batch has all that was offered to its poll, but at most as many as the way says, and its last event is marked if and only if no more was offered. No poll was offered more than these events.
    ensures batches { (most : ℕ) (start after : H) (events : List E) → (is : WentThrough H.goes most start after events) → All (λ batch. (offered : ℕ) × (offered ≤ length events) × (length batch.events ≡ min (offered - batch.first) most) × (IsTrue batch.end ↔ (batch.first + length batch.events ≡ offered))) is.batches }
    // So where a batch may have as many events as the run has, as by `Way::by`, each batch ends with its mark.
    ensures marked { (most : ℕ) (start after : H) (events : List E) → (is : WentThrough H.goes most start after events) → length events ≤ most → All IsMarked is.batches }
{}

/// What a run's contract says of handlers in a list, in a pair and in a triple: which is at which place, and that each
/// went through the events by its own type's `goes`.
pub fn what_a_team_says<
    E,
    A: InPlaceHandler<E> + Drop + Send + 'static,
    B: InPlaceHandler<E> + Drop + Send + 'static,
    C: InPlaceHandler<E> + Drop + Send + 'static,
>()
    // Handlers of one type: each went from the one that stood at its place.
    ensures list { (most : ℕ) (events : List E) (team after : Vec A) → ⟦<Vec<A> as Team<E>>⟧.went most events team after → (length after.items ≡ length team.items) × ((h : ℕ) (old new : A) → get_elem? team.items h ≡ some old → get_elem? after.items h ≡ some new → WentThrough A.goes most old new events) }
    // They stand in the list's order.
    ensures places_in_a_list { (team : Vec A) → ⟦<Vec<A> as Team<E>>⟧.listed team ≡ team.items }
    // Of a pair each went as its type does.
    ensures pair { (most : ℕ) (events : List E) (team after : _) → ⟦<(A, B) as Team<E>>⟧.went most events team after → WentThrough A.goes most team.0 after.0 events × WentThrough B.goes most team.1 after.1 events }
    // The first of a pair stands first.
    ensures places_in_a_pair { (team : _) → ⟦<(A, B) as Team<E>>⟧.listed team ≡ First team.0 ∷ Second team.1 ∷ [] }
    // Of a triple each went as its type does.
    ensures triple { (most : ℕ) (events : List E) (team after : _) → ⟦<(A, B, C) as Team<E>>⟧.went most events team after → WentThrough A.goes most team.0 after.0 events × WentThrough B.goes most team.1 after.1 events × WentThrough C.goes most team.2 after.2 events }
    // The handlers of a triple stand in its order.
    ensures places_in_a_triple { (team : _) → ⟦<(A, B, C) as Team<E>>⟧.listed team ≡ First team.0 ∷ Second (First team.1) ∷ Second (Second team.2) ∷ [] }
{}
