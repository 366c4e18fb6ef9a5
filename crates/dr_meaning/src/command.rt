//! What is asked of an exchange, and what it answers.

ghost use Rattle.std.specs.Prelude.{◌≡◌};
ghost use Rattle.dr_meaning.specs.Meaning.Runs.{count_in};

use crate::refusal::Refusal;

/// One call on an exchange. Producers go by number from 0, and handlers by their number in the
/// built order of the graph.
#[derive(Clone, Copy, Debug, PartialEq, Eq)]
pub enum Command<E> {
    /// Producer `p` asks for the next `n` sequences.
    Claim { p: u64, n: u64 },
    /// Producer `p` writes the event `v` to the sequence `s`, which it has claimed.
    Write { p: u64, s: u64, v: E },
    /// Producer `p` publishes the sequences from `lo` to `hi`, both in the stretch.
    Publish { p: u64, lo: u64, hi: u64 },
    /// Handler `h` takes what its barrier offers, at most `max` events.
    Poll { h: usize, max: usize },
    /// Handler `h` has done with the first `upto` events.
    Complete { h: usize, upto: u64 },
    /// No more claims.
    Halt,
    /// Handler `h` takes no more events, and claims no longer wait for it.
    Retire { h: usize },
}

/// What a call answers.
#[derive(Clone, Copy, Debug, PartialEq, Eq)]
pub enum Reply {
    /// The producer has claimed the sequences from `lo` to `hi`, both in the stretch.
    Claimed { lo: u64, hi: u64 },
    /// The event is written, and is not published yet.
    Written,
    /// The stretch is published.
    Published,
    /// A poll's batch, as [`Polled::Batch`].
    Batch { first: u64, count: u64, end: bool },
    /// A poll's answer, as [`Polled::Drained`].
    Drained,
    /// A poll's answer, as [`Polled::Gating`].
    Gating,
    /// A poll's answer, as [`Polled::Idle`].
    Idle,
    /// The events are completed.
    Completed,
    /// No more claims succeed.
    Halting,
    /// The handler is retired.
    Retired,
    /// The call was refused, and changed nothing.
    Refused(Refusal),
}

impl Reply {
    /// How many events come with it: none but with a batch.
    pub fn count(self) -> usize
        ensures { result ≡ count_in self }
    {
        match self {
            Reply::Batch { count, .. } => count as usize,
            _ => 0,
        }
    }
}

/// A stretch of claimed sequences, both ends in it.
#[derive(Clone, Copy, Debug, PartialEq, Eq)]
pub struct Claimed {
    pub lo: u64,
    pub hi: u64,
}

/// What a poll answers. The four answers are this project's own.
#[derive(Clone, Copy, Debug, PartialEq, Eq)]
pub enum Polled {
    /// The events of `count` sequences from `first` on; `end` where these are all that the
    /// barrier offered.
    Batch { first: u64, count: u64, end: bool },
    /// The exchange is halted, and the handler took every event that there will ever be.
    Drained,
    /// The cursor is past what the handler took, but its barrier is not.
    Gating,
    /// Nothing to take, so far.
    Idle,
}
