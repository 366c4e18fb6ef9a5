//! Ends of an exchange behind a lock.

ghost use Rattle.std.specs.Prelude.{◌≡◌, ◌+◌, ◌^◌, ◌≤◌, ◌||◌, ℕ, false, None, [], length};
ghost use Rattle.dr_meaning.specs.Calls.Calling.{WritesBy};
ghost use Rattle.dr_meaning.specs.Calls.Ends.{ClaimAnswers, WriteAnswers, WriteAllAnswers, PublishAnswers, PollAnswers, CompleteAnswers, is_drained};
ghost use Rattle.dr_meaning.specs.Calls.Replies.{claim_reply, unit_reply, poll_reply, polled};
ghost use Rattle.dr_lock.specs.Calls.Asking.{InletAsks, IsAsked, OutletAsks};
ghost use Rattle.dr_lock.specs.Calls.Lock.{AreWritten, after_calls, writes_asked};

use crate::end::End;
use crate::exchange::Exchange;
use crate::shared::Shared;
use dr_meaning::{Claimed, Command, Inlet, Outlet, Polled, Reply, Trouble, Wrote};
use std::sync::Wait;

/// A producer's end of a history behind a lock. It shows nothing of what it sent, which stands in
/// the history: only its end, which counts each accepted call, and remembers all calls with their
/// answers. Each call may wait for the lock.
#[derive(Drop)]
pub struct LockedInlet<'a, E, L: Exchange<E>, R> {
    rt: &'a R,
    shared: &'a Shared<E, L>,
    end: End<E, L>,
    p: u64,
}

impl<'a, E: Copy, L: Exchange<E>, R: Wait> LockedInlet<'a, E, L, R> {
    /// The end of the producer `p`, which calls through `end`.
    pub fn new(
        rt: &'a R,
        shared: &'a Shared<E, L>,
        end: End<E, L>,
        p: u64,
    ) -> LockedInlet<'a, E, L, R>
        // It calls as this producer, through this end.
        ensures number { result.p ≡ p }
        ensures end { result.end ≡ end }
    {
        LockedInlet { rt, shared, end, p }
    }

    /// The end that it called through.
    pub fn into_end(self) -> End<E, L>
        ensures { result ≡ self.entry.end }
    {
        let LockedInlet { end, .. } = self;
        end
    }
}

impl<E: Copy, L: Exchange<E>, R: Wait> Inlet<E> for LockedInlet<'_, E, L, R> {
    ghost Kept = { ℕ };

    // The producer's number.
    ghost kept = { λ inlet. inlet.p };

    ghost does = { λ old call new. (new.p ≡ old.p) × InletAsks L.begun old.p old.end call new.end };

    #[tactic(auto, using(crate::proofs::Replies::claim_tells))]
    fn try_claim(&mut self, n: u64) -> Result<Claimed, Trouble>
        ensures kept { self.new.p ≡ self.old.p }
        ensures answer { ClaimAnswers {E = E} None n result }
        // As this producer it asks just this, and the machine answers so after some history that goes on.
        ensures asked { (self.new.p ≡ self.old.p) × IsAsked L.begun (Command.Claim self.old.p n) claim_reply (λ answer. []) self.old.end result self.new.end }
    {
        let command = Command::Claim { p: self.p, n };
        match self.shared.call(self.rt, &mut self.end, command, &mut []) {
            Ok(Reply::Claimed { lo, hi }) => Ok(Claimed { lo, hi }),
            Ok(Reply::Refused(refusal)) => Err(Trouble::Refused(refusal)),
            Ok(_) => unreachable!(),
            Err(_) => Err(Trouble::Memory),
        }
    }

    #[tactic(auto, using(crate::proofs::Replies::write_tells))]
    fn write(&mut self, s: u64, event: E) -> Result<(), Trouble>
        ensures kept { self.new.p ≡ self.old.p }
        ensures answer { WriteAnswers {E = E} None s result }
        // As this producer it asks just this, and the machine answers so after some history that goes on.
        ensures asked { (self.new.p ≡ self.old.p) × IsAsked L.begun (Command.Write self.old.p s event) (unit_reply Reply.Written) (λ answer. []) self.old.end result self.new.end }
    {
        let command = Command::Write {
            p: self.p,
            s,
            v: event,
        };
        match self.shared.call(self.rt, &mut self.end, command, &mut []) {
            Ok(Reply::Written) => Ok(()),
            Ok(Reply::Refused(refusal)) => Err(Trouble::Refused(refusal)),
            Ok(_) => unreachable!(),
            Err(_) => Err(Trouble::Memory),
        }
    }

    // The lock is taken once for all of them.
    #[tactic(auto, using(crate::proofs::Replies::write_all_tells))]
    fn write_all(&mut self, lo: u64, events: &[E]) -> Wrote
        requires limit { lo + length events.now ≤ 2 ^ 62 }
        ensures kept { self.new.p ≡ self.old.p }
        ensures answer { WriteAllAnswers {E = E} None lo (length events.now) result }
        // As this producer it asks just these writes, and the machine answers each after some such history.
        ensures machine { AreWritten L.begun self.old.p lo events.now result }
        ensures counted { (self.new.end.calls ≡ self.old.end.calls + result.count) × (self.new.end.halts ≡ self.old.end.halts) }
        ensures end { self.new.end ≡ after_calls (writes_asked self.old.p lo events.now result) self.old.end }
        ensures called { WritesBy self.old self.new (λ old call new. (new.p ≡ old.p) × InletAsks L.begun old.p old.end call new.end) lo events.now result }
    {
        self.shared
            .write_all(self.rt, &mut self.end, self.p, lo, events)
    }

    #[tactic(auto, using(crate::proofs::Replies::publish_tells))]
    fn publish(&mut self, lo: u64, hi: u64) -> Result<(), Trouble>
        ensures kept { self.new.p ≡ self.old.p }
        ensures answer { PublishAnswers {E = E} None lo hi result }
        // As this producer it asks just this, and the machine answers so after some history that goes on.
        ensures asked { (self.new.p ≡ self.old.p) × IsAsked L.begun (Command.Publish self.old.p lo hi) (unit_reply Reply.Published) (λ answer. []) self.old.end result self.new.end }
    {
        let command = Command::Publish { p: self.p, lo, hi };
        match self.shared.call(self.rt, &mut self.end, command, &mut []) {
            Ok(Reply::Published) => Ok(()),
            Ok(Reply::Refused(refusal)) => Err(Trouble::Refused(refusal)),
            Ok(_) => unreachable!(),
            Err(_) => Err(Trouble::Memory),
        }
    }
}

/// A handler's end of a history behind a lock. Of what it received, which stands in the history, it
/// shows only whether it was told that the exchange drained, and its end, which counts each kept call
/// and remembers all calls with their answers. Each call may wait for the lock.
#[derive(Drop)]
pub struct LockedOutlet<'a, E, L: Exchange<E>, R> {
    rt: &'a R,
    shared: &'a Shared<E, L>,
    end: End<E, L>,
    h: usize,
    told: bool,
}

impl<'a, E: Copy, L: Exchange<E>, R: Wait> LockedOutlet<'a, E, L, R> {
    /// The end of the handler `h`, which calls through `end`.
    pub fn new(
        rt: &'a R,
        shared: &'a Shared<E, L>,
        end: End<E, L>,
        h: usize,
    ) -> LockedOutlet<'a, E, L, R>
        // It calls as this handler, through this end, and was not told yet that the exchange drained.
        ensures number { result.h ≡ h }
        ensures end { result.end ≡ end }
        ensures told { result.told ≡ false }
    {
        LockedOutlet {
            rt,
            shared,
            end,
            h,
            told: false,
        }
    }

    /// The end that it called through.
    pub fn into_end(self) -> End<E, L>
        ensures { result ≡ self.entry.end }
    {
        let LockedOutlet { end, .. } = self;
        end
    }
}

impl<E: Copy, L: Exchange<E>, R: Wait> Outlet<E> for LockedOutlet<'_, E, L, R> {
    ghost Kept = { ℕ };

    // The handler's number.
    ghost kept = { λ outlet. outlet.h };

    ghost told = { λ outlet. outlet.told };

    ghost does = { λ old call new. (new.h ≡ old.h) × OutletAsks L.begun old.h old.end call new.end };

    #[tactic(auto, using(crate::proofs::Replies::poll_tells))]
    fn poll_into(&mut self, out: &mut [E]) -> Result<Polled, Trouble>
        ensures kept { self.new.h ≡ self.old.h }
        ensures answer { PollAnswers {E = E} None out.old out.new result }
        ensures told { self.new.told ≡ (self.old.told || is_drained result) }
        // As this handler it asks just this, and the machine answers so after some history that goes on.
        ensures asked { (self.new.h ≡ self.old.h) × IsAsked L.begun (Command.Poll self.old.h (length out.old)) poll_reply (λ answer. polled answer out.new) self.old.end result self.new.end }
    {
        let command = Command::Poll {
            h: self.h,
            max: out.len(),
        };
        match self.shared.call(self.rt, &mut self.end, command, out) {
            Ok(Reply::Batch { first, count, end }) => Ok(Polled::Batch { first, count, end }),
            Ok(Reply::Drained) => {
                self.told = true;
                Ok(Polled::Drained)
            }
            Ok(Reply::Gating) => Ok(Polled::Gating),
            Ok(Reply::Idle) => Ok(Polled::Idle),
            Ok(Reply::Refused(refusal)) => Err(Trouble::Refused(refusal)),
            Ok(_) => unreachable!(),
            Err(_) => Err(Trouble::Memory),
        }
    }

    #[tactic(auto, using(crate::proofs::Replies::complete_tells))]
    fn complete(&mut self, upto: u64) -> Result<(), Trouble>
        ensures kept { self.new.h ≡ self.old.h }
        ensures answer { CompleteAnswers {E = E} None upto result }
        ensures told { self.new.told ≡ self.old.told }
        // As this handler it asks just this, and the machine answers so after some history that goes on.
        ensures asked { (self.new.h ≡ self.old.h) × IsAsked L.begun (Command.Complete self.old.h upto) (unit_reply Reply.Completed) (λ answer. []) self.old.end result self.new.end }
    {
        let command = Command::Complete { h: self.h, upto };
        match self.shared.call(self.rt, &mut self.end, command, &mut []) {
            Ok(Reply::Completed) => Ok(()),
            Ok(Reply::Refused(refusal)) => Err(Trouble::Refused(refusal)),
            Ok(_) => unreachable!(),
            Err(_) => Err(Trouble::Memory),
        }
    }
}
