//! The ends of an exchange, as those use them who need not know which exchange it is.

ghost use Rattle.std.specs.Prelude.{◌≡◌, ◌||◌, ◌+◌, ◌^◌, ◌≤◌, Bool, Option, None, Some, length, take};
ghost use Rattle.dr_meaning.specs.Calls.Trouble.{number_of, name_of};
ghost use Rattle.dr_meaning.specs.Calls.Calling.{InletCall, OutletCall, TriesClaim, WritesOne, PublishesStretch, PollsInto, CompletesBelow, WritesBy};
ghost use Rattle.dr_meaning.specs.Calls.Ends.{Sent, Received, ClaimAnswers, WriteAnswers, PublishAnswers, PollAnswers, CompleteAnswers, is_drained, WhereShown, Claims, Writes, Publishes, Takes, Completes, WriteAllAnswers, WritesAll};
ghost use Rattle.dr_meaning.specs.declared.ends.Trouble.TheVariants.{Refused};

use crate::command::{Claimed, Polled};
use crate::refusal::Refusal;
use std::fmt;
use thiserror::Error;

/// Why a call of an end did nothing.
#[derive(Clone, Copy, Debug, PartialEq, Eq, Error)]
pub enum Trouble {
    /// The exchange refused the call.
    Refused(Refusal),
    /// An allocation failed: the call may be made again.
    Memory,
}

impl Trouble {
    /// The number of the refusal, or of a lack of memory, which stays the same in every release.
    pub fn number(self) -> u32
        ensures { result ≡ number_of self }
    {
        match self {
            Trouble::Refused(refusal) => refusal.number(),
            Trouble::Memory => 40,
        }
    }

    /// The name of the refusal, or of a lack of memory, as programs print it.
    pub fn name(self) -> &'static str
        ensures { result.now ≡ name_of self }
    {
        match self {
            Trouble::Refused(refusal) => refusal.name(),
            Trouble::Memory => "no-memory",
        }
    }
}

impl fmt::Display for Trouble {
    ghost output = { λ trouble. Some (name_of trouble) };

    fn fmt<W: fmt::Write>(&self, f: &mut fmt::Formatter<W>) -> fmt::Result {
        f.write_str(self.name())
    }
}

impl From<Refusal> for Trouble {
    ghost from_gives = { λ refusal trouble. trouble ≡ Refused refusal };

    fn from(refusal: Refusal) -> Trouble {
        Trouble::Refused(refusal)
    }
}

/// How far a call came that writes many events.
#[derive(Clone, Copy, Debug, PartialEq, Eq)]
pub struct Wrote {
    /// How many of the events were written, from the first one on.
    pub count: usize,
    /// What kept the next one from being written.
    pub trouble: Option<Trouble>,
}

/// A producer's end. Its calls answer as the machine does, and in trouble they change nothing that
/// it shows.
pub trait Inlet<E: Copy> {
    /// What no call changes, as which end it is.
    ghost Kept: { Type 0 } = { Unit {0} };

    ghost kept: { Self → Self.Kept };

    /// What it sent so far, where the type shows it: one that shows it is the only producer.
    ghost sent: { Self → Option (Sent E) } = { λ _. None };

    /// What a call with its answer tells of the end before and after it, beside what it shows:
    /// nothing, unless the type says more.
    ghost does: { Self → InletCall E → Self → Type 0 } = { λ _ _ _. Unit {0} };

    /// Claims the next `n` sequences.
    fn try_claim(&mut self, n: u64) -> Result<Claimed, Trouble>
        // It stays the same end.
        ensures kept { kept self.new ≡ kept self.old }
        // The machine's tests allow its answer, in their order, and an accepted claim gives `n` sequences.
        ensures answer { ClaimAnswers (sent self.old) n result }
        // Where it shows what it sent, the next `n` sequences are open, or in trouble none is.
        ensures sent { WhereShown (Claims n result) (sent self.old) (sent self.new) }
        // What its type says of such a call holds too.
        ensures called { does self.old (TriesClaim n result) self.new };

    /// Writes the event of a sequence that is claimed and not published, in place of one that was
    /// written before.
    fn write(&mut self, s: u64, event: E) -> Result<(), Trouble>
        // It stays the same end, and the machine's tests allow its answer, in their order.
        ensures kept { kept self.new ≡ kept self.old }
        ensures answer { WriteAnswers (sent self.old) s result }
        // Where it shows what it sent, the open sequence has this event, or in trouble all is as before.
        ensures sent { WhereShown (Writes s event result) (sent self.old) (sent self.new) }
        // What its type says of such a call holds too.
        ensures called { does self.old (WritesOne s event result) self.new };

    /// Writes events to the sequences from `lo` on, as `write` does, until one is not written. An
    /// exchange behind a lock does so while it holds the lock once.
    fn write_all(&mut self, lo: u64, events: &[E]) -> Wrote
        requires limit { lo + length events.now ≤ 2 ^ 62 }
        // It stays the same end; the machine's tests allow each write made, and the trouble of the next one.
        ensures kept { kept self.new ≡ kept self.old }
        ensures answer { WriteAllAnswers (sent self.old) lo (length events.now) result }
        // Where it shows what it sent, the sequences from `lo` on have the events that were written.
        ensures sent { WhereShown (WritesAll lo (take result.count events.now)) (sent self.old) (sent self.new) }
        // By what its type says it is one call, or one for each event up to the first in trouble.
        ensures called { WritesBy self.old self.new does lo events.now result }
    {
        for (k, event) in events.iter().enumerate() {
            match self.write(lo + k as u64, *event) {
                Ok(()) => (),
                Err(trouble) => {
                    return Wrote {
                        count: k,
                        trouble: Some(trouble),
                    };
                }
            }
        }
        Wrote {
            count: events.len(),
            trouble: None,
        }
    }

    /// Publishes the sequences from `lo` to `hi`, both in the stretch.
    fn publish(&mut self, lo: u64, hi: u64) -> Result<(), Trouble>
        // It stays the same end, and the machine's tests allow its answer, in their order.
        ensures kept { kept self.new ≡ kept self.old }
        ensures answer { PublishAnswers (sent self.old) lo hi result }
        // Where it shows what it sent, all that was open up to `hi` is published, or in trouble nothing is.
        ensures sent { WhereShown (Publishes lo hi result) (sent self.old) (sent self.new) }
        // What its type says of such a call holds too.
        ensures called { does self.old (PublishesStretch lo hi result) self.new };
}

/// A handler's end. Its calls answer as the machine does, and in trouble they change nothing that it
/// shows.
pub trait Outlet<E> {
    /// What no call changes, as which end it is.
    ghost Kept: { Type 0 } = { Unit {0} };

    ghost kept: { Self → Self.Kept };

    /// What it handed out and completed so far, where the type shows it.
    ghost received: { Self → Option (Received E) } = { λ _. None };

    /// Whether it was told that the exchange drained.
    ghost told: { Self → Bool };

    /// What a call with its answer tells of the end before and after it, as [`Inlet`] has it.
    ghost does: { Self → OutletCall E → Self → Type 0 } = { λ _ _ _. Unit {0} };

    /// Takes some of the next events, at most as many as `out` has room for, to the front of `out`.
    /// How many, each exchange's own contract says.
    fn poll_into(&mut self, out: &mut [E]) -> Result<Polled, Trouble>
        // It stays the same end.
        ensures kept { kept self.new ≡ kept self.old }
        // The machine's tests allow its answer; a batch is in front in `out`, of which the rest stays.
        ensures answer { PollAnswers (received self.old) out.old out.new result }
        // It was told that the exchange drained if it was told so before, or is by this answer.
        ensures told { told self.new ≡ (told self.old || is_drained result) }
        // Where it shows what it received, a batch adds the next events, and any other answer none.
        ensures received { WhereShown (Takes out.new result) (received self.old) (received self.new) }
        // What its type says of such a call holds too.
        ensures called { does self.old (PollsInto out.old out.new result) self.new };

    /// Completes all events below `upto`.
    fn complete(&mut self, upto: u64) -> Result<(), Trouble>
        // It stays the same end, and the machine's tests allow its answer, in their order.
        ensures kept { kept self.new ≡ kept self.old }
        ensures answer { CompleteAnswers (received self.old) upto result }
        // Whether it was told that the exchange drained stays as it was.
        ensures told { told self.new ≡ told self.old }
        // Where it shows what it received, all below `upto` is completed, or in trouble all is as before.
        ensures received { WhereShown (Completes upto result) (received self.old) (received self.new) }
        // What its type says of such a call holds too.
        ensures called { does self.old (CompletesBelow upto result) self.new };
}
