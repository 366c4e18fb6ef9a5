//! An event in the records of a ring's ends. None is ever made: it stands in proofs alone.

/// An event as it was lent to all handlers: which lending of its cell, and the event.
pub struct Lent<T> {
    pub round: u64,
    pub event: T,
}
