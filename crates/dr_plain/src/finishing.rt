//! All ends of a ring come together, and its events come back.

ghost use Rattle.std.specs.Prelude.{◌≡◌, ◌<◌, false, List, length, map, slice_set, Some};
ghost use Rattle.std.specs.Arc.{arc_value};
ghost use Rattle.dr_cells.specs.Tokens.{IsAll};
ghost use Rattle.dr_cells.specs.declared.token.Token.{Token as TokenValue};
ghost use Rattle.dr_runs.specs.Gathering.{Gathers, IsInView, ViewRan};
ghost use Rattle.dr_runs.specs.Seats.{both_views};
ghost use Rattle.dr_runs.specs.declared.view.View.{View};
ghost use Rattle.dr_lent.specs.Rows.{cells_of};
ghost use Rattle.dr_plain.specs.declared.record.EndRecord.{EndRecord};
ghost use Rattle.dr_plain.specs.declared.record.Step.{Step};
ghost use Rattle.dr_plain.specs.Meaning.Records.{claimed as claimed_of};
ghost use Rattle.dr_plain.specs.Meaning.Settling.{FoundUnhalted, Settles};
ghost use Rattle.dr_plain.specs.Calls.Settling.{AreAllEnds, HasRun, handler_counts};
ghost use Rattle.dr_plain.specs.Calls.Ends.{SenderEnd, ReceiverEnd, HalterEnd};
ghost use Rattle.dr_plain.specs.Inside.Fits.{PartsFit};
ghost use Rattle.dr_plain.specs.Inside.Seats.{IsAtTable, ring_ends, exchange};
ghost use Rattle.dr_plain.specs.Inside.Gathering.{AreReceiversAt, receiver_known};
ghost use Rattle.dr_plain.specs.Inside.Finishing.{HasAllEnds};
ghost use Rattle.dr_plain.specs.Inside.Bringing.{AreHandsOf, EndsKeep};

use crate::body::RingBody;
use crate::laws::{Halter, RingSeat, Words, moments, settling};
use crate::left::ReceiverLeft;
use crate::plan::Plan;
use crate::receiver::Receiver;
use crate::reclaiming::reclaim;
use crate::sender::Sender;
use crate::settled::Settled;
use dr_cells::{Cells, Row, Token, Values};
use dr_lent::rows::{put_at, whole_row};
use dr_runs::HandlerCounts;
use std::alloc::Global;
use std::marker::Brand;
use std::snapshot::Snapshot;
use std::sync::Arc;

/// A receiver's seat comes to the sender's, and its counts and tokens to their places.
pub(crate) fn bring_receiver<T>(
    words: &Words<T>,
    seat: &mut RingSeat<T>,
    receiver: ReceiverLeft<T>,
    place: usize,
    counts: &mut Vec<HandlerCounts>,
    hands: &mut Vec<Vec<Token<T>>>,
)
    requires table { (seat.old.table_id ≡ words.now.table_id) × (receiver.ring ≡ words.now.table_id) × (0 < words.now.table_id.words) }
    requires place { (place < length counts.old.items) × (place < length hands.old.items) }
    ensures seat { (seat.new.table_id ≡ seat.old.table_id) × (seat.new.me.1 ≡ seat.old.me.1) }
    ensures view { (own : View (EndRecord T) (Step T)) × IsInView ring_ends own (receiver_known receiver) × (seat.new.me.0 ≡ both_views seat.old.me.0 own) }
    ensures counts { counts.new.items ≡ slice_set counts.old.items place (handler_counts receiver.knows) }
    ensures hands { (parts : List (TokenValue T)) × PartsFit receiver.knows parts × (map (λ hand. hand.items) hands.new.items ≡ slice_set (map (λ hand. hand.items) hands.old.items) place parts) }
{
    counts[place] = HandlerCounts {
        taken: receiver.taken,
        completed: receiver.completed,
    };
    put_at(hands, place, receiver.parts);
    settling::unite(words, seat, receiver.seat);
}

// All receivers come so.
fn gather_receivers<T: Drop>(
    ring: &Arc<RingBody<T>, Global>,
    seat: &mut RingSeat<T>,
    mut receivers: Vec<Receiver<T>>,
    counts: &mut Vec<HandlerCounts>,
    hands: &mut Vec<Vec<Token<T>>>,
)
    requires table { IsAtTable seat.old.table_id (arc_value ring.now).table.shared.table_id (arc_value ring.now).plan }
    requires receivers { AreReceiversAt seat.old.table_id receivers.items }
    requires places { length counts.old.items ≡ length receivers.items }
    requires rooms { length hands.old.items ≡ length receivers.items }
    ensures seat { (seat.new.table_id ≡ seat.old.table_id) × (seat.new.me.1 ≡ seat.old.me.1) }
    ensures view { Gathers ring_ends seat.old.me.0 (map receiver_known receivers.items) seat.new.me.0 }
    ensures counts { counts.new.items ≡ map (λ e. handler_counts e.knows) receivers.items }
    ensures hands { AreHandsOf receivers.items (map (λ hand. hand.items) hands.new.items) }
{
    while let Some(receiver) = receivers.pop() {
        let place = receivers.len();
        let (_, _, left) = receiver.into_left();
        bring_receiver(&ring.table.shared, seat, left, place, counts, hands);
    }
}

/// The seat that stands for all ends takes what lies in the slots, and ends the ring: each cell is
/// whole again.
pub(crate) fn reclaim_all<T>(
    words: &Words<T>,
    plan: &Plan<T>,
    mut seat: RingSeat<T>,
    counts: &Vec<HandlerCounts>,
    hands: Vec<Vec<Token<T>>>,
    claimed: u64,
    published: u64,
    cells: Cells<T>,
    tokens: Vec<Token<T>>,
) -> Row<T>
    requires table { (seat.table_id ≡ words.now.table_id) × (0 < words.now.table_id.words) }
    requires cells { cells.ptr ≡ plan.now.strip }
    requires together { (s : SenderEnd T) × (es : List (ReceiverEnd T)) × (t : HalterEnd T) × (plan.now ≡ s.knows.plan) × HasAllEnds seat.me.0 s es t × EndsKeep s es claimed published tokens.items counts.now.items (map (λ hand. hand.items) hands.items) }
    ensures ran { ViewRan (exchange words.now.key) seat.me.0 }
    ensures all { IsAll cells.ptr (length tokens.items) result }
    ensures events { map (λ event. Some event) result.items ≡ cells_of tokens.items }
{
    settling::take_all::<T, Brand>(words, &mut seat);
    let tokens = reclaim(words, plan, seat, counts, hands, claimed, published, tokens);
    whole_row(cells, tokens)
}

// All ends come together in the sender's seat, and give each handler's counts, and the events.
fn bring_together<T: Drop>(
    sender: Sender<T>,
    receivers: Vec<Receiver<T>>,
    halter: Halter<T>,
) -> (Vec<HandlerCounts>, Values<T>)
    requires { AreAllEnds sender receivers.items halter }
    ensures handlers { result.0.items ≡ map (λ e. handler_counts e.knows) receivers.items }
    ensures lists { Settles sender.knows (map (λ e. e.knows) receivers.items) }
    ensures unhalted { halter.knows.halted ≡ false → FoundUnhalted sender.knows }
    ensures run { HasRun sender receivers.items halter }
    ensures events { map (λ event. Some event) result.1 ≡ sender.cells }
{
    let (ring, sends) = sender.into_left();
    let (_, halts) = halter.into_left();
    let (mut seat, mut counts, mut hands) = (sends.seat, sends.counts, sends.hands);
    settling::unite(&ring.table.shared, &mut seat, halts.seat);
    gather_receivers(&ring, &mut seat, receivers, &mut counts, &mut hands);
    let row = reclaim_all(
        &ring.table.shared,
        &ring.plan,
        seat,
        &counts,
        hands,
        sends.claimed,
        sends.published,
        sends.strip.cells,
        sends.tokens,
    );
    moments::<T>();
    (counts, sends.strip.close(row))
}

/// Brings all ends of a ring together, and gives its events back: of each cell what was last written
/// there, or what the ring began with. Each is there once, whatever the ends had in hand. They may
/// be used, and are dropped with the answer. It takes no memory, and never fails.
///
/// Each receiver has the beginning of what the sender published, all of it where it was told that
/// the ring drained; no handler took more than its upstreams completed; and no more is claimed
/// than a round beyond what each final handler completed. There is one run of all ends that came
/// to what they know, in which each end stored exactly what it did, and its transcript is lawful.
/// Where the halter never halted the ring, the sender found no halt but its own.
pub fn settle_all<T: Drop>(
    sender: Sender<T>,
    receivers: Vec<Receiver<T>>,
    halter: Halter<T>,
) -> (Settled<T>, Values<T>)
    requires { AreAllEnds sender receivers.items halter }
    // It remembers these ends.
    ensures ends { (result.0.sender.value ≡ sender) × (result.0.receivers.value.items ≡ receivers.items) × (result.0.halter.value ≡ halter) }
    // It counts what was claimed and published, and what each handler took and completed.
    ensures claimed { result.0.claimed ≡ claimed_of sender.knows }
    ensures published { result.0.published ≡ length sender.knows.published }
    ensures handlers { result.0.handlers.items ≡ map (λ e. handler_counts e.knows) receivers.items }
    // Each receiver has the beginning of what was published, all if told `Drained`, behind its upstreams.
    ensures lists { Settles sender.knows (map (λ e. e.knows) receivers.items) }
    // Where the halter never halted, the sender found no halt before its own.
    ensures unhalted { halter.knows.halted ≡ false → FoundUnhalted sender.knows }
    // One lawful run came to what these ends know, in which each stored just what it did.
    ensures run { HasRun sender receivers.items halter }
    // Of each cell comes what was last written there, or what the ring began with.
    ensures events { map (λ event. Some event) result.1 ≡ sender.cells }
{
    let sent = Snapshot::of(&sender);
    let received = Snapshot::of(&receivers);
    let halted = Snapshot::of(&halter);
    let (claimed, published) = (sender.claimed(), sender.published());
    let (handlers, events) = bring_together(sender, receivers, halter);
    let settled = Settled {
        claimed,
        published,
        handlers,
        sender: sent,
        receivers: received,
        halter: halted,
    };
    (settled, events)
}
