//! The producers' calls: sequences are claimed, written and published.

ghost use Rattle.std.specs.Prelude.{◌≡◌, ℕ, ◌+◌, ◌^◌, ◌<◌, ◌≤◌, ◌≢◌, nat_le, false, [], None, Some, MatchOption, OnErr};
ghost use Rattle.dr_core.specs.Inside.Availability.{claim_fault as claim_fault_of, publish_fault as publish_fault_of};
ghost use Rattle.dr_core.specs.Calls.CoreView.{known_at, gate_of};
ghost use Rattle.dr_core.specs.Calls.Shows.{IsStep};
ghost use Rattle.dr_meaning.specs.Calls.Replies.{claim_reply, unit_reply};

use crate::availability::{is_ahead, is_next_written, is_written, note, own, owner_of, show};
use crate::engine::Core;
use crate::least::least_flagged;
use dr_meaning::{Claimed, Command, Refusal, Reply};

impl<E: Copy> Core<E> {
    /// Whether a claim up to `wanted` has room, by a scan of the gating handlers. The least count that
    /// it finds is remembered, and with it up to which sequence nothing refuses a claim to come.
    fn has_room(&mut self, wanted: u64) -> bool
        requires going { self.old.halted ≡ false }
        ensures room { result ≡ nat_le wanted (self.old.setup.size + gate_of self.old) }
        ensures same { self.new ≡ self.old }
    {
        self.gate
            .raise(least_flagged(&self.completed, &self.gating));
        let room = self.size.get() + self.gate.seen();
        self.claimable = self.limit.min(room);
        wanted <= room
    }

    /// What refuses a claim of `n` sequences, where a claim may be of so many. Up to `claimable`
    /// nothing does, and that there is no room is answered only after a scan.
    fn claim_fault(&mut self, n: u64) -> Option<Refusal>
        requires some { n ≢ 0 }
        requires fits { n ≤ self.old.setup.size }
        ensures fault { result ≡ claim_fault_of self.old n }
        ensures same { self.new ≡ self.old }
    {
        let wanted = self.next + n;
        if wanted <= self.claimable {
            return None;
        }
        if self.halted {
            return Some(Refusal::Halted);
        }
        if wanted > self.limit {
            return Some(Refusal::Exhausted);
        }
        if !self.has_room(wanted) {
            return Some(Refusal::NoRoom);
        }
        None
    }

    /// What refuses a producer to publish a recent sequence.
    fn publish_fault(&self, s: u64, p: u64) -> Option<Refusal>
        requires claimed { s < self.now.next }
        requires recent { self.now.next ≤ s + self.now.setup.size }
        ensures { result ≡ publish_fault_of (known_at self.now s) p }
    {
        if s < self.front || is_ahead(self.mode, &self.published, s) {
            Some(Refusal::AlreadyPublished)
        } else if owner_of(self.mode, &self.owners, self.size, s) != p {
            Some(Refusal::NotClaimed)
        } else if is_written(&self.written, self.filled, s) {
            None
        } else {
            Some(Refusal::NotWritten)
        }
    }

    /// The first refusal to publish a sequence of a stretch.
    fn first_fault(&self, from: u64, n: u64, p: u64) -> Option<Refusal>
        requires claimed { from + n ≤ self.now.next }
        requires recent { self.now.next ≤ from + self.now.setup.size }
        requires fits { from + n < 2 ^ 63 }
        ensures { MatchOption result ((k : ℕ) → k < n → publish_fault_of (known_at self.now (from + k)) p ≡ None) (λ r. (k : ℕ) × (k < n) × ((j : ℕ) → j < k → publish_fault_of (known_at self.now (from + j)) p ≡ None) × (publish_fault_of (known_at self.now (from + k)) p ≡ Some r)) }
    {
        for k in 0..n {
            let fault = self.publish_fault(from + k, p);
            if fault.is_some() {
                return fault;
            }
        }
        None
    }

    /// Gives a producer the next `n` sequences, where the events that lay in their slots are
    /// completed by every final handler that is left, as LMAX's sequencers do by their gating
    /// sequences.
    pub fn claim(&mut self, p: u64, n: u64) -> Result<Claimed, Refusal>
        // The machine's claim, with its refusals in order; a refused one leaves the core as it was.
        ensures step { IsStep self.old (Command.Claim p n) (claim_reply result) [] self.new }
        ensures refused { OnErr result (self.new ≡ self.old) }
    {
        if p >= self.mode.producers() {
            return Err(Refusal::NoProducer);
        }
        if n == 0 || n > self.size.get() {
            return Err(Refusal::BadCount);
        }
        if let Some(refusal) = self.claim_fault(n) {
            return Err(refusal);
        }
        let lo = self.next;
        own(self.mode, &mut self.owners, self.size, lo, n, p);
        self.next = lo + n;
        Ok(Claimed { lo, hi: lo + n - 1 })
    }

    /// Writes the event of a claimed sequence. Until it is published it may be written again.
    pub fn write(&mut self, p: u64, s: u64, event: E) -> Result<(), Refusal>
        // The machine's write, with its refusals in order; a refused one leaves the core as it was.
        ensures step { IsStep self.old (Command.Write p s event) (unit_reply Reply.Written result) [] self.new }
        ensures refused { OnErr result (self.new ≡ self.old) }
    {
        if p >= self.mode.producers() {
            return Err(Refusal::NoProducer);
        }
        if s >= self.next {
            return Err(Refusal::NotClaimed);
        }
        if s < self.front {
            return Err(Refusal::AlreadyPublished);
        }
        if is_ahead(self.mode, &self.published, s) {
            return Err(Refusal::AlreadyPublished);
        }
        if owner_of(self.mode, &self.owners, self.size, s) != p {
            return Err(Refusal::NotClaimed);
        }
        self.filled = note(&mut self.written, self.filled, s);
        self.events.put(s, event);
        Ok(())
    }

    /// Publishes a stretch of sequences in one step. Handlers receive them once all before them
    /// are published too.
    // Where a program calls it at several places, LLVM would leave it out of line, and an event on
    // one thread would take many more instructions.
    #[inline(always)]
    pub fn publish(&mut self, p: u64, lo: u64, hi: u64) -> Result<(), Refusal>
        // The machine's publication, with its refusals in order; a refused one leaves the core as it was.
        ensures step { IsStep self.old (Command.Publish p lo hi) (unit_reply Reply.Published result) [] self.new }
        ensures refused { OnErr result (self.new ≡ self.old) }
    {
        if p >= self.mode.producers() {
            return Err(Refusal::NoProducer);
        }
        if is_next_written(self.mode, lo, hi, self.front, self.filled) {
            self.front = hi + 1;
            return Ok(());
        }
        if lo > hi {
            return Err(Refusal::BadCount);
        }
        if hi >= self.next {
            return Err(Refusal::NotClaimed);
        }
        if lo < self.front {
            return Err(Refusal::AlreadyPublished);
        }
        let n = hi + 1 - lo;
        if let Some(refusal) = self.first_fault(lo, n, p) {
            return Err(refusal);
        }
        if self.mode.is_single() && lo != self.front {
            return Err(Refusal::OutOfOrder);
        }
        let (front, next) = (self.front, self.next);
        self.front = show(self.mode, &mut self.published, lo, hi, front, next);
        self.filled = self.filled.max(self.front);
        Ok(())
    }
}
