//! The exchange behind one lock.

ghost use Rattle.std.specs.Result.{result_ok};
ghost use Rattle.std.specs.Prelude.{◌≡◌, ◌↔◌, ◌+◌, ◌^◌, ◌<◌, ◌≤◌, IfOk, IfErr, OnErr, IsErr, MatchOption, drop, length, sum_by, take, vec_len};
ghost use Rattle.dr_meaning.specs.Meaning.Runs.{count_in};
ghost use Rattle.dr_lock.specs.Meaning.History.{GoesOn, asked, entries_since, halts_in};
ghost use Rattle.dr_lock.specs.Calls.Lock.{AreWritten, IsAnswer, after_call, after_calls, handed, handed_out, no_calls, writes_asked};

use crate::end::{End, Locked};
use crate::exchange::Exchange;
use crate::recorded::Recorded;
use dr_meaning::{Command, Reply, Wrote};
use std::alloc::AllocError;
use std::hint::spin_loop;
use std::marker::{Model, PhantomData};
use std::sync::ledger::{Blank, Ledger, Share};
use std::sync::{Mutex, MutexGuard, Wait};

/// How many ends a lock gives out at most.
pub const MAX_ENDS: usize = 64;

// How often a call tries the lock before it sleeps, and how long it pauses between two tries. Another
// call may hold the lock for some microseconds, and to sleep and be woken takes as long.
const TRIES: u32 = 10;

const PAUSES: u32 = 50;

/// The parts of the ledger that no end has.
#[derive(Drop)]
struct Rest<L: Ledger> {
    share: Share<L>,
}

/// A share may be sent, and through a `&Rest` nobody reaches it. The proof is `rest_sync`, in
/// `proofs/SharedCrossing`: each start of a thread with a `&Shared` rests on it.
unsafe impl<L: Ledger> Sync for Rest<L> {}

/// That the ledger has a part for each end and one that stays.
#[derive(Drop)]
struct Whole<L: Ledger> {
    of: PhantomData<L>,
    ghost parts: { L.parts ≡ 65 },
}

/// A history behind one lock, which threads share by reference. Each calls through an end of its
/// own.
#[derive(Drop)]
pub struct Shared<E, L: Exchange<E>> {
    locked: Mutex<Locked<E, L>>,
    rest: Rest<L>,
    whole: Whole<L>,
    begun: usize,
    given: usize,
}

impl<E, L: Exchange<E>> Model for Shared<E, L> {
    ghost use Rattle.std.specs.Prelude.{◌≡◌, ◌+◌, ◌≤◌, length};
    ghost use Rattle.dr_lock.specs.Calls.Lock.{SharedView};

    ghost Value = { SharedView };

    ghost view = { λ a. record { begun = a.begun; given = a.given } };

    ghost invariant = { λ a. (a.rest.share.parts + a.given ≡ 65) × (a.rest.share.amount ≡ 0) × (a.begun ≡ length L.begun.entries) × (a.given ≤ 64) };
}

/// What is handed back where an end is missing.
#[derive(Drop)]
pub struct Unfinished<E, L: Exchange<E>> {
    pub shared: Shared<E, L>,
    pub ends: Vec<End<E, L>>,
}

impl<E: Copy, L: Exchange<E>> Shared<E, L> {
    /// Puts a history behind a lock. The ledger has a part for each end and one that stays, and begins
    /// with this history.
    pub fn new(recorded: Recorded<E>, blank: Blank) -> Shared<E, L>
        requires name { blank.name ≡ L.name }
        requires parts { blank.parts ≡ L.parts }
        requires ends { blank.parts ≡ 65 }
        requires begun { recorded.history ≡ L.begun }
        // It remembers how long the history was, and gave out no end yet.
        ensures begun { result.begun ≡ length recorded.history.entries }
        ensures given { result.given ≡ 0 }
    {
        let begun = recorded.history().len();
        let (calls, share) = blank.open::<L>();
        Shared {
            locked: Mutex::new(Locked::new(recorded, calls)),
            rest: Rest { share },
            whole: Whole { of: PhantomData },
            begun,
            given: 0,
        }
    }

    /// How many entries the history had when it came behind the lock.
    pub fn begun(&self) -> usize
        ensures { result ≡ self.now.begun }
    {
        self.begun
    }

    /// How many ends were given out.
    pub fn given(&self) -> usize
        ensures { result ≡ self.now.given }
    {
        self.given
    }

    /// An end for one thread, or `None` after [`MAX_ENDS`].
    pub fn end(&mut self) -> Option<End<E, L>>
        // The end made no call yet; there is none once 64 are given out.
        ensures end { MatchOption result ((self.old.given ≡ 64) × (self.new ≡ self.old)) (λ end. (end ≡ no_calls) × (self.new ≡ record self.old { given = self.old.given + 1 })) }
    {
        if self.given == MAX_ENDS {
            return None;
        }
        let share = self.rest.share.split_off(1, 0);
        self.given += 1;
        Some(End::new(share))
    }

    /// One call of the history, while the lock is held: it may wait for the lock. What it answers is
    /// what the machine answers after some history that goes on from the one that the lock began with,
    /// and the end remembers it with its answer and its events, and counts it where it is kept. For a poll `out` holds
    /// as many events as it asks for; a batch stands at its front. Where an allocation fails the call may
    /// be made again. An end that counted 2^57 calls answers all others as if one failed.
    pub fn call(
        &self,
        rt: &impl Wait,
        end: &mut End<E, L>,
        command: Command<E>,
        out: &mut [E],
    ) -> Result<Reply, AllocError>
        requires { asked command ≤ length out.old }
        // The machine answers so after some history that goes on from the one that came behind the lock.
        ensures answer { IfOk result (λ reply. IsAnswer L.begun command reply (take (count_in reply) out.new)) }
        // What lies in `out` behind the batch stays, and all of it where memory ran out.
        ensures rest { IfOk result (λ reply. drop (count_in reply) out.new ≡ drop (count_in reply) out.old) }
        ensures unchanged { OnErr result (out.new ≡ out.old) }
        // The end remembers the call with its answer and its events, and counts it if it was kept.
        ensures end { end.new ≡ handed (handed_out (result_ok result) out.new) (after_call command (result_ok result) end.old) }
    {
        held(&self.locked, rt).call(end, command, out)
    }

    /// Writes of a producer, one after another while the lock is held once: events go to the
    /// sequences from `lo` on, until one is not written. Each is answered, remembered and counted as by
    /// `call`: where memory runs out, the last one remembered is the write that lacked it.
    pub fn write_all(
        &self,
        rt: &impl Wait,
        end: &mut End<E, L>,
        p: u64,
        lo: u64,
        events: &[E],
    ) -> Wrote
        requires limit { lo + length events.now ≤ 2 ^ 62 }
        // Each write is answered by the machine after some history that goes on, up to the first in trouble.
        ensures answer { AreWritten L.begun p lo events.now result }
        // It counts as many calls as events were written, and no halt.
        ensures counts { (end.new.calls ≡ end.old.calls + result.count) × (end.new.halts ≡ end.old.halts) }
        // It remembers each write with its answer, also the one in trouble.
        ensures end { end.new ≡ after_calls (writes_asked p lo events.now result) end.old }
    {
        held(&self.locked, rt).write_all(end, p, lo, events)
    }
}

// Takes the lock: it tries for a while, and then waits.
fn held<'a, T>(lock: &'a Mutex<T>, rt: &impl Wait) -> MutexGuard<'a, T> {
    for _ in 0..TRIES {
        if let Some(guard) = lock.try_lock() {
            return guard;
        }
        pause();
    }
    lock.lock(rt)
}

fn pause() {
    for _ in 0..PAUSES {
        spin_loop();
    }
}

/// Takes the history from behind its lock, once all ends are back: it is the one that came there with
/// as many entries more as the ends counted, and among those as many halts. Where an end is missing,
/// all is handed back.
pub fn finish<E, L: Exchange<E>>(
    shared: Shared<E, L>,
    ends: Vec<End<E, L>>,
) -> Result<Recorded<E>, Unfinished<E, L>>
    // It fails exactly where an end is missing.
    ensures missing { IsErr result ↔ (vec_len ends < shared.given) }
    // The history goes on from the one that came behind the lock.
    ensures goes_on { IfOk result (λ recorded. GoesOn L.begun recorded.history) }
    // It has as many entries more, and among them as many halts, as the ends counted.
    ensures entries { IfOk result (λ recorded. length recorded.history.entries ≡ shared.begun + sum_by (λ end. end.calls) ends.items) }
    ensures halts { IfOk result (λ recorded. halts_in (entries_since L.begun recorded.history) ≡ sum_by (λ end. end.halts) ends.items) }
    // Where it fails, the history behind its lock and the ends come back.
    ensures back { IfErr result (λ unfinished. (unfinished.shared ≡ shared) × (unfinished.ends ≡ ends)) }
{
    if ends.len() < shared.given {
        return Err(Unfinished { shared, ends });
    }
    let Shared {
        locked,
        rest,
        whole: _,
        begun: _,
        given: _,
    } = shared;
    let Rest { share: mut all } = rest;
    let mut ends = ends;
    while let Some(end) = ends.pop() {
        all.merge(end.into_share());
    }
    let (recorded, mut calls) = locked.into_inner().into_parts();
    calls.audit(&mut all);
    Ok(recorded)
}
