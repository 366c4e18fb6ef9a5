//! All ends of a ring come together.

ghost use Rattle.std.specs.Prelude.{◌≡◌, ◌<◌, false, length, map, IfSome, None, Some};
ghost use Rattle.std.specs.Option.{ForSome};
ghost use Rattle.std.specs.Arc.{arc_value};
ghost use Rattle.dr_ring.specs.Inside.Seats.{IsAtTable, ring_ends};
ghost use Rattle.dr_ring.specs.Meaning.Records.{claimed as claimed_of};
ghost use Rattle.dr_runs.specs.Gathering.{Gathers, counts_at};
ghost use Rattle.dr_ring.specs.Inside.Gathering.{AreReceiversAt, halters_known, receiver_known};
ghost use Rattle.dr_ring.specs.Meaning.Settling.{FoundUnhalted, Settles};
ghost use Rattle.dr_ring.specs.Calls.Settling.{AreAllEnds, AreOfOneRun, AreReceiversOf, HasRun, handler_counts};

use crate::laws::{Halter, RingBody, RingSeat, moments, settling};
use crate::receiver::Receiver;
use crate::sender::Sender;
use dr_runs::HandlerCounts;
use std::alloc::Global;
use std::snapshot::Snapshot;
use std::sync::Arc;

/// How far a ring came, and, in contracts alone, which ends came together.
#[derive(Drop)]
pub struct Settled {
    claimed: u64,
    published: u64,
    handlers: Vec<HandlerCounts>,
    sender: Snapshot<Sender>,
    receivers: Snapshot<Vec<Receiver>>,
    halter: Snapshot<Option<Halter>>,
}

impl Settled {
    /// How many sequences were claimed.
    pub fn claimed(&self) -> u64
        ensures { result ≡ self.now.claimed }
    {
        self.claimed
    }

    /// How many events were published.
    pub fn published(&self) -> u64
        ensures { result ≡ self.now.published }
    {
        self.published
    }

    /// How many handlers there are.
    pub fn handlers(&self) -> usize
        ensures { result ≡ length self.now.handlers.items }
    {
        self.handlers.len()
    }

    /// How many events a handler took.
    pub fn taken(&self, handler: usize) -> u64
        requires { handler < length self.now.handlers.items }
        ensures { result ≡ (counts_at self.now.handlers.items handler).taken }
    {
        self.handlers[handler].taken
    }

    /// How many events a handler completed.
    pub fn completed(&self, handler: usize) -> u64
        requires { handler < length self.now.handlers.items }
        ensures { result ≡ (counts_at self.now.handlers.items handler).completed }
    {
        self.handlers[handler].completed
    }
}

// The halter's seat comes to the sender's, if the halter is there.
fn gather_halter(ring: &Arc<RingBody, Global>, seat: &mut RingSeat, halter: Option<Halter>)
    requires table { IsAtTable seat.old.table_id (arc_value ring.now).table.shared.table_id (arc_value ring.now).plan }
    requires halter { ForSome halter (λ t. t.ring ≡ seat.old.table_id) }
    ensures seat { seat.new.table_id ≡ seat.old.table_id }
    ensures view { Gathers ring_ends seat.old.me.0 (halters_known halter) seat.new.me.0 }
{
    if let Some(halter) = halter {
        settling::unite(&ring.table.shared, seat, halter.seat);
    }
}

// A receiver's seat comes to the sender's, and its counts to their place.
fn gather_receivers(
    ring: &Arc<RingBody, Global>,
    seat: &mut RingSeat,
    mut receivers: Vec<Receiver>,
    counts: &mut Vec<HandlerCounts>,
)
    requires table { IsAtTable seat.old.table_id (arc_value ring.now).table.shared.table_id (arc_value ring.now).plan }
    requires receivers { AreReceiversAt seat.old.table_id receivers.items }
    requires places { length counts.old.items ≡ length receivers.items }
    ensures seat { seat.new.table_id ≡ seat.old.table_id }
    ensures view { Gathers ring_ends seat.old.me.0 (map receiver_known receivers.items) seat.new.me.0 }
    ensures counts { counts.new.items ≡ map (λ e. handler_counts e.knows) receivers.items }
{
    while let Some(receiver) = receivers.pop() {
        counts[receivers.len()] = HandlerCounts {
            taken: receiver.taken,
            completed: receiver.completed,
        };
        let station = receiver.station;
        settling::unite(&ring.table.shared, seat, station.seat);
    }
}

// Brings a sender and its receivers together, and their halter if it is there.
fn bring_together(sender: Sender, receivers: Vec<Receiver>, halter: Option<Halter>) -> Settled
    requires receivers { AreReceiversOf sender receivers.items }
    requires halter { ForSome halter (λ t. t.ring ≡ sender.ring) }
    ensures ends { (result.sender.value ≡ sender) × (result.receivers.value.items ≡ receivers.items) × (result.halter.value ≡ halter) }
    ensures claimed { result.claimed ≡ claimed_of sender.knows }
    ensures published { result.published ≡ length sender.knows.sent.published }
    ensures handlers { result.handlers.items ≡ map (λ e. handler_counts e.knows) receivers.items }
    ensures lists { Settles sender.knows (map (λ e. e.knows) receivers.items) }
    ensures unhalted { IfSome halter (λ t. t.knows.halted ≡ false → FoundUnhalted sender.knows) }
    ensures one { AreOfOneRun sender receivers.items }
    ensures run { IfSome halter (HasRun sender receivers.items) }
{
    let ends = (
        Snapshot::of(&sender),
        Snapshot::of(&receivers),
        Snapshot::of(&halter),
    );
    let station = sender.station;
    let mut seat = station.seat;
    let mut counts = sender.counts;
    gather_halter(&station.ring, &mut seat, halter);
    gather_receivers(&station.ring, &mut seat, receivers, &mut counts);
    settling::compare(&station.ring.table.shared, &mut seat);
    moments();
    Settled {
        claimed: sender.claimed,
        published: sender.published,
        handlers: counts,
        sender: ends.0,
        receivers: ends.1,
        halter: ends.2,
    }
}

/// Brings all ends of a ring together but its halter, which may stay where it is. It takes no memory.
///
/// Each receiver has the beginning of what the sender published, all of it where it was told that
/// the ring drained; no handler took more than its upstreams completed; and no more is claimed
/// than a round beyond what each final handler completed. One run of the ring came to what these
/// ends know, in it each of them stored exactly what it did, and its transcript is lawful.
pub fn settle(sender: Sender, receivers: Vec<Receiver>) -> Settled
    requires { AreReceiversOf sender receivers.items }
    // It remembers these ends.
    ensures ends { (result.sender.value ≡ sender) × (result.receivers.value.items ≡ receivers.items) × (result.halter.value ≡ None) }
    // It counts what was claimed and published, and what each handler took and completed.
    ensures claimed { result.claimed ≡ claimed_of sender.knows }
    ensures published { result.published ≡ length sender.knows.sent.published }
    ensures handlers { result.handlers.items ≡ map (λ e. handler_counts e.knows) receivers.items }
    // Each receiver has the beginning of what was published, all if told `Drained`, behind its upstreams.
    ensures lists { Settles sender.knows (map (λ e. e.knows) receivers.items) }
    // One lawful run came to what these ends know, in which each stored just what it did.
    ensures run { AreOfOneRun sender receivers.items }
{
    bring_together(sender, receivers, None)
}

/// As [`settle`], with the halter too: the run came to what it knows as well, so where it never
/// halted the ring, the sender found no halt but its own.
pub fn settle_all(sender: Sender, receivers: Vec<Receiver>, halter: Halter) -> Settled
    requires { AreAllEnds sender receivers.items halter }
    // It remembers these ends.
    ensures ends { (result.sender.value ≡ sender) × (result.receivers.value.items ≡ receivers.items) × (result.halter.value ≡ Some halter) }
    // It counts what was claimed and published, and what each handler took and completed.
    ensures claimed { result.claimed ≡ claimed_of sender.knows }
    ensures published { result.published ≡ length sender.knows.sent.published }
    ensures handlers { result.handlers.items ≡ map (λ e. handler_counts e.knows) receivers.items }
    // Each receiver has the beginning of what was published, all if told `Drained`, behind its upstreams.
    ensures lists { Settles sender.knows (map (λ e. e.knows) receivers.items) }
    // Where the halter never halted, the sender found no halt before its own.
    ensures unhalted { halter.knows.halted ≡ false → FoundUnhalted sender.knows }
    // One lawful run came to what these ends know, in which each stored just what it did.
    ensures run { HasRun sender receivers.items halter }
{
    bring_together(sender, receivers, Some(halter))
}
