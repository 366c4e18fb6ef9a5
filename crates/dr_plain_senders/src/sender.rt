//! An end that claims, writes and publishes.

ghost use Rattle.std.specs.Arc.{arc_value};
ghost use Rattle.std.specs.Prelude.{◌≡◌, ◌<◌, ℕ};
ghost use Rattle.dr_runs.specs.Looks.{looks_counted};
ghost use Rattle.dr_plain_senders.specs.Calls.Sending.{HaltCall, SenderClaimCall};
ghost use Rattle.dr_plain_senders.specs.Inside.Fits.{SenderFits};
ghost use Rattle.dr_plain_senders.specs.Inside.Leaving.{BelongsSender};
ghost use Rattle.dr_plain_senders.specs.Inside.Views.{sender_end};

use crate::body::RingBody;
use crate::laws::SenderStation;
use crate::left::SenderLeft;
use crate::owned::Owned;
use dr_cells::Token;
use dr_meaning::{ClaimFault, Claimed};
use std::alloc::Global;
use std::marker::Model;
use std::snapshot::Snapshot;
use std::sync::Arc;

/// An end of one of a ring's senders, which claims, writes and publishes. No call waits or takes
/// memory.
pub struct Sender<T> {
    pub(crate) station: SenderStation<T>,
    pub(crate) owned: Owned,
    // One more than the last sequence that it claimed.
    pub(crate) end: u64,
    // What it has of each cell: all of it while a sequence there is claimed and not published.
    pub(crate) tokens: Vec<Token<T>>,
}

impl<T> Model for Sender<T> {
    ghost use base.Fml.{ftrue};
    ghost use Rattle.dr_plain_senders.specs.Calls.Ends.{SenderEnd};
    ghost use Rattle.dr_plain_senders.specs.Inside.Fits.{SenderFits};
    ghost use Rattle.dr_plain_senders.specs.Inside.Views.{sender_end};

    ghost Value = { SenderEnd T };

    ghost view = { λ s. sender_end s.station s.owned s.tokens.items };

    ghost invariant = { λ s. SenderFits s.station s.owned s.end s.tokens.items };

    ghost also_owns = { λ _. ftrue };

    ghost also_shares = { λ _ _ _. ftrue };
}

// One lemma shows it, so that a search for `Send` ends here.
unsafe impl<T: Send + Sync> Send for Sender<T> {}

impl<T> Sender<T> {
    // One with all that it has.
    pub(crate) fn of(
        station: SenderStation<T>,
        owned: Owned,
        end: u64,
        tokens: Vec<Token<T>>,
    ) -> Sender<T>
        requires { SenderFits station owned end tokens.items }
        ensures { result ≡ sender_end station owned tokens.items }
    {
        Sender {
            station,
            owned,
            end,
            tokens,
        }
    }

    /// Claims the next `n` sequences. It looks at the claim word, then at each final handler's
    /// count, and exchanges the claim word if it still is what it was.
    ///
    /// The causes of a refusal in their order: `BadCount` (none, or more than the size), `Halted`,
    /// `Exhausted`, `NoRoom`, and at the exchange `Halted` once more, or `Contended`: another
    /// sender claimed meanwhile. A refused claim may have looked and tried to exchange, and changes
    /// nothing else.
    pub fn try_claim(&mut self, n: u64) -> Result<Claimed, ClaimFault>
        // By its looks and its swap of the claim word it claims the next sequences, with an event in each cell, or says why not.
        ensures { SenderClaimCall self.old n self.new result }
    {
        match self.station.try_claim(n) {
            Ok(claimed) => {
                let end = claimed.lo + n;
                self.station.collect(claimed.lo, end, &mut self.tokens);
                self.owned.claim(claimed.lo, end);
                self.end = end;
                Ok(claimed)
            }
            Err(fault) => Err(fault),
        }
    }

    /// Halts the ring, in one step. It always succeeds, and may be repeated. What is claimed may
    /// still be written and published; a receiver that took all of it is told `Drained`.
    pub fn halt(&mut self)
        // It halts the ring in one step, which is a look too, and does nothing else.
        ensures { HaltCall self.old self.new }
    {
        self.station.halt();
    }

    /// How many words the sender has loaded that other ends change, marks aside, up to the greatest
    /// `u64`.
    pub fn looks(&self) -> u64
        ensures { result ≡ looks_counted self.now.knows.looks }
    {
        self.station.looks
    }

    // All that it has, with its number and the ring.
    pub(crate) fn into_left(self) -> (Arc<RingBody<T>, Global>, usize, SenderLeft<T>)
        ensures place { BelongsSender (arc_value result.0).table.shared.table_id (arc_value result.0).plan result.1 self }
        ensures number { result.1 < (arc_value result.0).plan.senders }
        ensures left { result.2 ≡ self }
    {
        let Sender {
            station,
            owned,
            end,
            tokens,
        } = self;
        let SenderStation {
            ring,
            seat,
            number,
            looks: _,
        } = station;
        let plan = Snapshot::of(&ring.plan);
        let left = SenderLeft {
            seat,
            plan,
            owned,
            end,
            tokens,
        };
        (ring, number, left)
    }
}

/// It leaves what it holds in the ring, without waiting or taking memory. With the last end the events
/// are dropped, and all memory of the ring is free.
impl<T: Drop> Drop for Sender<T> {
    fn drop(self) {
        let (ring, number, left) = self.into_left();
        drop(ring.senders.leave(number, left));
    }
}
