//! What the ends of a ring know. No value of a record is ever made: they stand in proofs alone.

use crate::plan::Plan;
use dr_runs::Look;
use dr_seq::Event;
use std::collections::LinkedList;
use std::marker::Model;

/// A write of which the first word is stored, and the second not yet.
pub struct HalfWrite {
    pub sequence: u64,
    pub first: u64,
}

/// The events that the sender published, and each later sequence that it claimed, with its event
/// once it is written. It is what an inlet shows as sent.
pub struct SentEvents {
    pub published: LinkedList<Event>,
    pub pending: LinkedList<Option<Event>>,
}

impl Model for SentEvents {
    ghost use Rattle.dr_seq.specs.declared.event.Event.{Event};
    ghost use Rattle.dr_meaning.specs.Calls.Ends.{Sent};

    ghost Value = { Sent Event };

    ghost view = { λ e. record { published = e.published; pending = e.pending } };
}

/// What the sender knows: what it sent, the write of which it has stored the first word alone,
/// whether it halted or closed the ring, what it saw and, once it halted, what of that it saw before.
pub struct SenderRecord {
    pub plan: Plan,
    pub sent: SentEvents,
    pub half: Option<HalfWrite>,
    pub halted: bool,
    pub closed: bool,
    pub looks: LinkedList<Look>,
    pub before: LinkedList<Look>,
}

/// What a receiver knows: its number, the events that it received, the first word of the next one
/// if that alone is loaded, how many it completed, and whether it was told that the ring drained.
pub struct ReceiverRecord {
    pub plan: Plan,
    pub number: u64,
    pub received: LinkedList<Event>,
    pub half: Option<u64>,
    pub completed: u64,
    pub told: bool,
    pub looks: LinkedList<Look>,
}

/// What the halter knows: whether it halted the ring.
pub struct HalterRecord {
    pub plan: Plan,
    pub halted: bool,
}

/// What one of the ends knows.
pub enum EndRecord {
    Sends(SenderRecord),
    Receives(ReceiverRecord),
    Halts(HalterRecord),
}

/// A step of a ring: one load or one store of one word, with what no record tells of it.
pub enum Step {
    /// The sender looks at the count of a final handler.
    SenderLooksAtCount { handler: u64 },
    /// The sender looks at halt and, where it finds 0, claims so many sequences more.
    SenderLooksAtHalt { more: u64 },
    /// The sender stores the first word of the event of a sequence that it claimed.
    SenderStoresFirst { sequence: u64, first: u64 },
    /// The sender stores the second word of that event.
    SenderStoresSecond { second: u64 },
    /// The sender stores the cursor.
    SenderPublishes { upto: u64 },
    /// The sender stores halt.
    SenderHalts,
    /// The sender stores closed.
    SenderCloses,
    /// A receiver looks at closed.
    ReceiverLooksAtClosed { handler: u64 },
    /// A receiver looks at the cursor.
    ReceiverLooksAtCursor { handler: u64 },
    /// A receiver looks at the count of an upstream.
    ReceiverLooksAtCount { handler: u64, upstream: u64 },
    /// A receiver loads the first word of its next event.
    ReceiverLoadsFirst { handler: u64 },
    /// A receiver loads the second word of that event, and has taken it.
    ReceiverLoadsSecond { handler: u64 },
    /// A receiver stores its count.
    ReceiverCompletes { handler: u64, upto: u64 },
    /// The halter stores halt.
    HalterHalts,
}

/// What a seat of a ring stands for.
pub type View = dr_runs::View<EndRecord, Step>;
