//! The handlers' calls: events are taken as their barriers let them through, and completed.

ghost use Rattle.std.specs.Prelude.{◌≡◌, ℕ, Bool, List, Ok, min, true, ◌<◌, ◌≤◌, ◌^◌, ◌+◌, ◌++◌, [], length, map, drop, OnErr, IfOk, IsOk, if◌then◌else◌};
ghost use Rattle.std.specs.List.{range_with_len};
ghost use Rattle.dr_seq.specs.Slots.{event_at};
ghost use Rattle.dr_graph.specs.Meaning.Graph.{upstreams_of};
ghost use Rattle.dr_meaning.specs.Meaning.Machine.{State, handlers, is_single, step};
ghost use Rattle.dr_meaning.specs.Meaning.Runs.{count_in};
ghost use Rattle.dr_core.specs.Inside.Fields.{IsNothing};
ghost use Rattle.dr_core.specs.Calls.Ready.{ready_for};
ghost use Rattle.dr_core.specs.Calls.Turning.{TakesTurn};
ghost use Rattle.dr_core.specs.Calls.Shows.{Shows, IsStep, TakesIfBatch, CanComplete, offered_to};
ghost use Rattle.dr_meaning.specs.Calls.Replies.{unit_reply, poll_reply, polled};

use crate::engine::Core;
use crate::least::least_count;
use crate::turning::show_stretch;
use dr_meaning::{Command, InPlaceHandler, Polled, Refusal, Reply};
use dr_seq::Slots;

impl<E: Copy> Core<E> {
    /// How many events a handler could take by now: those published, or those that all its
    /// upstreams completed.
    fn available(&self, h: usize) -> u64
        requires { h < handlers self.now.setup }
        ensures { result ≡ offered_to self.now (upstreams_of self.now.setup.upstreams h) }
    {
        let upstreams = self.graph.upstreams(h);
        if upstreams.is_empty() {
            self.front
        } else {
            least_count(&self.completed, upstreams)
        }
    }

    /// The published sequences with one producer, the claimed ones with several.
    fn cursor(&self) -> u64
        ensures { result ≡ (if is_single self.now.setup.mode then self.now.front else self.now.next) }
    {
        if self.mode.is_single() {
            self.front
        } else {
            self.next
        }
    }

    /// How many events a poll could give a handler now.
    pub fn ready(&self, h: usize) -> Result<u64, Refusal>
        // It is what the barrier lets through and the handler did not take; first come the two refusals.
        ensures answer { result ≡ ready_for self.now h }
        // On each state that the core shows a poll hands out so many events, or its maximum if less.
        ensures gives { IfOk result (λ n. (m : State E) (max : ℕ) → Shows self.now m → length (step self.now.setup m (Command.Poll h max)).values ≡ min n max) }
    {
        if h >= self.graph.len() {
            return Err(Refusal::NoHandler);
        }
        if self.retired[h] {
            return Err(Refusal::Retired);
        }
        let available = self.available(h);
        let taken = self.taken[h];
        Ok(available.saturating_sub(taken))
    }

    /// Takes what the barrier of a handler lets through, at most as much as `out` holds, and puts
    /// it at the front of `out`. `end` is LMAX's end of batch, unless `out` was too small for all.
    pub fn poll_into(&mut self, h: usize, out: &mut [E]) -> Result<Polled, Refusal>
        // The machine polls with the buffer's room, and answers so with the events in front in the buffer.
        ensures step { IsStep self.old (Command.Poll h (length out.old)) (poll_reply result) (polled result out.new) self.new }
        // What lies in the buffer behind the batch stays, and a batch fits into the buffer.
        ensures rest { out.new ≡ polled result out.new ++ drop (length (polled result out.new)) out.old }
        ensures fits { count_in (poll_reply result) ≤ length out.old }
        // After a batch the handler has taken it to its end, is not retired, and completed none of it.
        ensures takes { TakesIfBatch h result self.new }
        // A refusal leaves the core as it was.
        ensures refused { OnErr result (self.new ≡ self.old) }
    {
        if h >= self.graph.len() {
            return Err(Refusal::NoHandler);
        }
        if self.retired[h] {
            return Err(Refusal::Retired);
        }
        if out.is_empty() {
            return Err(Refusal::BadCount);
        }
        let first = self.taken[h];
        let available = self.available(h);
        if first < available {
            let count = (available - first).min(out.len() as u64);
            copy_out(&self.events, first, count as usize, out);
            self.taken[h] = first + count;
            return Ok(Polled::Batch {
                first,
                count,
                end: first + count == available,
            });
        }
        Ok(self.why_nothing(first))
    }

    /// One turn of LMAX's batch processor over the events where they lie: all that the barrier of
    /// a handler lets through is shown to it, in at most two pieces, and then completed. So the last
    /// event is always marked. Answers other than a batch reach no handler.
    pub fn turn_in_place<H: InPlaceHandler<E>>(
        &mut self,
        h: usize,
        handler: &mut H,
    ) -> Result<Polled, Refusal>
        // The machine polls with a ring's room, the handler goes through the batch, and it is completed.
        ensures turn { (values : List E) × TakesTurn H.goes self.old h self.old.setup.size result values self.new handler.old handler.new }
        // A batch is all that was available, so its last event is marked.
        ensures all { (first : ℕ) (count : ℕ) (end : Bool) → result ≡ Ok (Polled.Batch first count end) → end ≡ true }
        // A refusal leaves the core as it was.
        ensures refused { OnErr result (self.new ≡ self.old) }
    {
        if h >= self.graph.len() {
            return Err(Refusal::NoHandler);
        }
        if self.retired[h] {
            return Err(Refusal::Retired);
        }
        let first = self.taken[h];
        let available = self.available(h);
        if first >= available {
            return Ok(self.why_nothing(first));
        }
        let count = available - first;
        show_stretch(handler, &self.events, first, count as usize);
        self.taken[h] = available;
        self.completed[h] = available;
        Ok(Polled::Batch {
            first,
            count,
            end: true,
        })
    }

    /// What a poll answers a handler that took all that its barrier lets through.
    fn why_nothing(&self, first: u64) -> Polled
        ensures { IsNothing self.now first result }
    {
        if self.halted && first == self.next {
            return Polled::Drained;
        }
        if first < self.cursor() {
            return Polled::Gating;
        }
        Polled::Idle
    }

    /// A handler has done with its first `upto` events, so that its followers may take them, and
    /// after a final handler their slots may be claimed again.
    pub fn complete(&mut self, h: usize, upto: u64) -> Result<(), Refusal>
        // The machine's completion, with its refusals in their order.
        ensures step { IsStep self.old (Command.Complete h upto) (unit_reply Reply.Completed result) [] self.new }
        // A handler may complete up to what it took, if it is not retired and takes no completion back.
        ensures accepted { CanComplete self.old h upto → IsOk result }
        // A refusal leaves the core as it was.
        ensures refused { OnErr result (self.new ≡ self.old) }
    {
        if h >= self.graph.len() {
            return Err(Refusal::NoHandler);
        }
        if self.retired[h] {
            return Err(Refusal::Retired);
        }
        if upto < self.completed[h] {
            return Err(Refusal::Behind);
        }
        if upto > self.taken[h] {
            return Err(Refusal::NotTaken);
        }
        self.completed[h] = upto;
        Ok(())
    }
}

/// So many events are copied in pieces, and fewer one by one.
const MANY_EVENTS: usize = 16;

/// Copies the events of a stretch of sequences to the front of a buffer.
#[inline]
fn copy_out<E: Copy>(events: &Slots<E>, first: u64, count: usize, out: &mut [E])
    requires fits { first + count < 2 ^ 63 }
    requires round { count ≤ length events.now }
    requires within { count ≤ length out.old }
    ensures { (d : E) → out.new ≡ map (λ s. event_at d events.now s) (range_with_len first count) ++ drop count out.old }
{
    if count < MANY_EVENTS {
        copy_few(events, first, count, out);
    } else {
        let (front, _) = out.split_at_mut(count);
        events.copy_to(first, front);
    }
}

/// The same, one by one.
#[inline]
fn copy_few<E: Copy>(events: &Slots<E>, first: u64, count: usize, out: &mut [E])
    requires fits { first + count < 2 ^ 63 }
    requires within { count ≤ length out.old }
    ensures { (d : E) → out.new ≡ map (λ s. event_at d events.now s) (range_with_len first count) ++ drop count out.old }
{
    for k in 0..count {
        out[k] = events.get(first + k as u64);
    }
}
