//! One thread's end of a history behind a lock, and what a call through it does to what lies there.
//!
//! Nothing outside this file changes an end, or what lies under the lock, but by a call: so what calls
//! through an end recorded is just what the end remembers.

ghost use Rattle.std.specs.Prelude.{◌≡◌, ◌+◌, ◌++◌, ◌∷◌, ◌^◌, ◌<◌, ◌≤◌, [], IfOk, OnErr, ◌*◌, drop, length, take};
ghost use Rattle.std.specs.Result.{result_ok};
ghost use Rattle.dr_meaning.specs.Meaning.Runs.{count_in};
ghost use Rattle.dr_lock.specs.Meaning.History.{GoesOn, asked, halts_of};
ghost use Rattle.dr_meaning.specs.Calls.Replies.{unit_reply};
ghost use Rattle.dr_lock.specs.Calls.Lock.{AreWritten, IsAnswer, UnlessMemory, after_call, after_calls, counted, handed, handed_out, no_calls, remembered, told_by, writes_asked};
ghost use Rattle.dr_lock.specs.Inside.Locked.{AreWrites, IsCall, IsLacking, IsWrite};
ghost use Rattle.dr_lock.specs.Inside.Weights.{most_calls, weight, weight_since};

use crate::call::{Call, Given, Past};
use crate::entry::is_kept;
use crate::exchange::Exchange;
use crate::recorded::Recorded;
use dr_meaning::{Command, Reply, Trouble, Wrote};
use std::alloc::AllocError;
use std::marker::Model;
use std::mem;
use std::snapshot::Snapshot;
use std::sync::ledger::{Book, Ledger, Share};

/// How many kept calls an end counts at most, so that all of them weigh less than one halt.
const MOST_CALLS: u64 = 1 << 57;

/// What lies under the lock: the history that the exchange began with, and since then as many calls,
/// and as many halts among them, as the ledger says.
#[derive(Drop)]
pub(crate) struct Locked<E, L: Exchange<E>> {
    recorded: Recorded<E>,
    calls: Book<L>,
    ghost goes_on: { GoesOn L.begun recorded.history },
    ghost counted: { calls.total ≡ weight_since L.begun recorded.history },
    ghost fits: { length recorded.history.entries < 2 ^ 64 },
}

/// One thread's end of a shared history; the ledger ties it to that history alone. Contracts see how
/// many of its calls were kept, and how many of these were halts. In the ledger a halt weighs more
/// than all other calls could. They also see all its calls, kept or not, with the answers, and all events
/// that it was handed: once the lock is open again no clause can speak of the shared history, but the
/// end remembers what it asked, and what it got.
#[derive(Drop)]
pub struct End<E, L: Ledger> {
    share: Share<L>,
    calls: u64,
    halts: u64,
    past: Snapshot<Past<E>>,
    given: Snapshot<Given<E>>,
}

impl<E, L: Ledger> Model for End<E, L> {
    ghost use Rattle.std.specs.Prelude.{◌≡◌, ◌≤◌};
    ghost use Rattle.dr_lock.specs.Calls.Lock.{EndView};
    ghost use Rattle.dr_lock.specs.Inside.Past.{calls_of, events_of};
    ghost use Rattle.dr_lock.specs.Inside.Weights.{most_calls, weight};

    ghost Value = { EndView E };

    ghost view = { λ a. record { calls = a.calls; halts = a.halts; asked = calls_of a.past.value; given = events_of a.given.value } };

    ghost invariant = { λ a. (a.share.parts ≡ 1) × (a.share.amount ≡ weight a.calls a.halts) × (a.halts ≤ a.calls) × (a.calls ≤ most_calls) };
}

impl<E, L: Ledger> End<E, L> {
    /// A new end, through which nobody has called.
    pub(crate) fn new(share: Share<L>) -> End<E, L>
        requires parts { share.parts ≡ 1 }
        requires amount { share.amount ≡ 0 }
        ensures { result ≡ no_calls }
    {
        End {
            share,
            calls: 0,
            halts: 0,
            past: Snapshot::of(&Past::Unused),
            given: Snapshot::of(&Given::Nothing),
        }
    }

    /// Its share of the ledger, which has what its calls weigh.
    pub(crate) fn into_share(self) -> Share<L>
        ensures parts { result.parts ≡ 1 }
        ensures amount { result.amount ≡ weight self.calls self.halts }
        ensures most { self.calls ≤ most_calls }
    {
        let End { share, .. } = self;
        share
    }

    /// How many of its calls were kept.
    pub fn calls(&self) -> u64
        ensures { result ≡ self.now.calls }
    {
        self.calls
    }

    /// How many of its kept calls were halts.
    pub fn halts(&self) -> u64
        ensures { result ≡ self.now.halts }
    {
        self.halts
    }
}

impl<E: Copy, L: Ledger> End<E, L> {
    /// Counts a kept call, in the ledger too.
    fn count(&mut self, ledger: &mut Book<L>, command: Command<E>)
        requires { self.old.calls < most_calls }
        ensures end { self.new ≡ counted command self.old }
        ensures total { ledger.new.total ≡ ledger.old.total + weight 1 (halts_of command) }
    {
        let End {
            share,
            calls,
            halts,
            ..
        } = self;
        ledger.add(share, 1);
        *calls += 1;
        if let Command::Halt = command {
            ledger.add(share, 1 << 63);
            ledger.add(share, 1 << 63);
            *halts += 1;
        }
    }

    /// Remembers a call, and what was answered to it.
    fn remember(&mut self, command: Command<E>, reply: Option<Reply>)
        ensures { self.new ≡ remembered command reply self.old }
    {
        let End { past, .. } = self;
        let before = mem::replace(past, Snapshot::of(&Past::Unused));
        *past = Snapshot::of(&Past::After(before, Call { command, reply }));
    }

    /// Remembers an event that it was handed.
    fn receive(&mut self, event: E)
        ensures { self.new ≡ record self.old { given = self.old.given ++ event ∷ [] } }
    {
        let End { given, .. } = self;
        let before = mem::replace(given, Snapshot::of(&Given::Nothing));
        *given = Snapshot::of(&Given::More(before, event));
    }

    /// Remembers the events of a batch.
    fn receive_all(&mut self, events: &[E])
        ensures { self.new ≡ handed events.now self.old }
    {
        for event in events.iter() {
            self.receive(*event);
        }
    }
}

impl<E, L: Exchange<E>> Locked<E, L> {
    /// What a lock begins with: the history that its ledger names, and nothing counted.
    pub(crate) fn new(recorded: Recorded<E>, calls: Book<L>) -> Locked<E, L>
        requires begun { recorded.history ≡ L.begun }
        requires fits { length recorded.history.entries < 2 ^ 64 }
        requires uncounted { calls.total ≡ 0 }
        ensures recorded { result.recorded ≡ recorded }
        ensures calls { result.calls ≡ calls }
    {
        Locked { recorded, calls }
    }

    /// The history, and how much its calls weigh.
    pub(crate) fn into_parts(self) -> (Recorded<E>, Book<L>)
        ensures recorded { result.0 ≡ self.recorded }
        ensures goes_on { GoesOn L.begun result.0.history }
        ensures counted { result.1.total ≡ weight_since L.begun result.0.history }
        ensures fits { length result.0.history.entries < 2 ^ 64 }
    {
        let Locked { recorded, calls } = self;
        (recorded, calls)
    }
}

impl<E: Copy, L: Exchange<E>> Locked<E, L> {
    /// The history's call, which the end remembers, and counts where it is kept. Here the history is at
    /// hand, so its clauses are exact of it.
    pub(crate) fn call(
        &mut self,
        end: &mut End<E, L>,
        command: Command<E>,
        out: &mut [E],
    ) -> Result<Reply, AllocError>
        requires { asked command ≤ length out.old }
        ensures answer { IfOk result (λ reply. IsAnswer L.begun command reply (take (count_in reply) out.new)) }
        ensures call { IfOk result (λ reply. IsCall self.old.recorded command reply (take (count_in reply) out.new) self.new.recorded) }
        ensures memory { OnErr result (IsLacking end.old.calls self.old.recorded command self.new.recorded) }
        ensures rest { IfOk result (λ reply. drop (count_in reply) out.new ≡ drop (count_in reply) out.old) }
        ensures unchanged { OnErr result (out.new ≡ out.old) }
        ensures end { end.new ≡ handed (handed_out (result_ok result) out.new) (after_call command (result_ok result) end.old) }
    {
        if end.calls == MOST_CALLS {
            end.remember(command, None);
            return Err(AllocError);
        }
        let Locked { recorded, calls } = self;
        match recorded.call(command, out) {
            Ok(reply) => {
                if is_kept(reply) {
                    end.count(calls, command);
                }
                end.remember(command, Some(reply));
                end.receive_all(&out[..reply.count()]);
                Ok(reply)
            }
            Err(fault) => {
                end.remember(command, None);
                Err(fault)
            }
        }
    }

    /// Writes the event of a claimed sequence.
    fn write(&mut self, end: &mut End<E, L>, p: u64, s: u64, event: E) -> Result<(), Trouble>
        ensures answer { UnlessMemory (λ answer. IsAnswer L.begun (Command.Write p s event) (unit_reply Reply.Written answer) []) result }
        ensures call { IsWrite end.old.calls self.old.recorded p s event self.new.recorded result }
        ensures end { end.new ≡ after_call (Command.Write p s event) (told_by (unit_reply Reply.Written) result) end.old }
    {
        match self.call(end, Command::Write { p, s, v: event }, &mut []) {
            Ok(Reply::Written) => Ok(()),
            Ok(Reply::Refused(refusal)) => Err(Trouble::Refused(refusal)),
            Ok(_) => unreachable!(),
            Err(_) => Err(Trouble::Memory),
        }
    }

    /// Writes events to the sequences from `lo` on, until one is not written.
    pub(crate) fn write_all(&mut self, end: &mut End<E, L>, p: u64, lo: u64, events: &[E]) -> Wrote
        requires limit { lo + length events.now ≤ 2 ^ 62 }
        ensures answer { AreWritten L.begun p lo events.now result }
        ensures calls { AreWrites end.old.calls self.old.recorded p lo events.now self.new.recorded result }
        ensures counts { (end.new.calls ≡ end.old.calls + result.count) × (end.new.halts ≡ end.old.halts) }
        ensures end { end.new ≡ after_calls (writes_asked p lo events.now result) end.old }
    {
        for (k, event) in events.iter().enumerate() {
            match self.write(end, p, lo + k as u64, *event) {
                Ok(()) => (),
                Err(trouble) => {
                    return Wrote {
                        count: k,
                        trouble: Some(trouble),
                    };
                }
            }
        }
        Wrote {
            count: events.len(),
            trouble: None,
        }
    }
}
