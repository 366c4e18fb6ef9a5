//! What the ends of a ring know. No value of a record is ever made: they stand in proofs alone.

use crate::plan::Plan;
pub use dr_lent::Lent;
use dr_runs::Look;
use std::collections::LinkedList;

/// What the sender knows: which events it published, each as it was lent, how many sequences it
/// claimed past them, whether it halted or closed the ring, what it saw and, once it halted, what of
/// that it saw before.
pub struct SenderRecord<T> {
    pub plan: Plan<T>,
    pub published: LinkedList<Lent<T>>,
    pub pending: u64,
    pub halted: bool,
    pub closed: bool,
    pub looks: LinkedList<Look>,
    pub before: LinkedList<Look>,
}

/// What a receiver knows: its number, the events that it received, each as it was lent, how many it
/// completed, whether it was told that the ring drained, and what it saw.
pub struct ReceiverRecord<T> {
    pub plan: Plan<T>,
    pub number: u64,
    pub received: LinkedList<Lent<T>>,
    pub completed: u64,
    pub told: bool,
    pub looks: LinkedList<Look>,
}

/// What the halter knows: whether it halted the ring, and what it saw.
pub struct HalterRecord<T> {
    pub plan: Plan<T>,
    pub halted: bool,
    pub looks: LinkedList<Look>,
}

/// What one of the ends knows.
pub enum EndRecord<T> {
    Sends(SenderRecord<T>),
    Receives(ReceiverRecord<T>),
    Halts(HalterRecord<T>),
}

/// A step of a ring: one load or one store of one word, with what no record tells of it.
pub enum Step<T> {
    /// The sender looks at the count of a final handler.
    SenderLooksAtCount {
        handler: u64,
    },
    /// The sender looks at halt and, where it finds 0, claims so many sequences more.
    SenderLooksAtHalt {
        more: u64,
    },
    /// The sender stores the cursor, and so publishes these events.
    SenderPublishes {
        events: LinkedList<T>,
    },
    /// The sender stores halt.
    SenderHalts,
    /// The sender stores closed.
    SenderCloses,
    /// A receiver looks at closed.
    ReceiverLooksAtClosed {
        handler: u64,
    },
    /// A receiver looks at the cursor and takes what its barrier then lets through, at most so many.
    ReceiverLooksAtCursor {
        handler: u64,
        room: u64,
    },
    /// A receiver looks at an upstream's count, and takes as at the cursor.
    ReceiverLooksAtCount {
        handler: u64,
        upstream: u64,
        room: u64,
    },
    /// A receiver stores its count.
    ReceiverCompletes {
        handler: u64,
        upto: u64,
    },
    /// The halter stores halt.
    HalterHalts,
    /// The halter looks at a word.
    HalterLooks {
        word: u64,
    },
}

/// What a seat of a ring stands for.
pub type View<T> = dr_runs::View<EndRecord<T>, Step<T>>;
