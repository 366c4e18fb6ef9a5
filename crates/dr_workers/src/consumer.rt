//! The worker of a handler.

ghost use Rattle.std.specs.Prelude.{◌≡◌, ◌≢◌, true, Err, IfNone, IfOk, OnOk, Some, length};
ghost use Rattle.dr_meaning.specs.Calls.Calling.{SomeCalls};
ghost use Rattle.dr_meaning.specs.Calls.Ends.{WhereShown};
ghost use Rattle.dr_workers.specs.declared.consumer.Progress.TheVariants.{Drained, GoesOn};
ghost use Rattle.dr_workers.specs.declared.fault.WorkFault.TheVariants.{Memory, Stopped};
ghost use Rattle.dr_workers.specs.Calls.Serving.{Serves};
ghost use Rattle.dr_workers.specs.Calls.Stops.{MayStop};
ghost use Rattle.dr_workers.specs.Calls.Waits.{Attends};
ghost use Rattle.dr_workers.specs.Inside.Retries.{TakesBatch};
ghost use Rattle.dr_workers.specs.Meaning.Work.{IsDone};

use crate::bell::Rings;
use crate::fault::WorkFault;
use crate::gate::Gate;
use crate::passages::Passages;
use crate::patience::Patience;
use crate::retries::complete;
use crate::ringing::Ringing;
use crate::waiting::Waiting;
use dr_meaning::{ByValue, Handler, InPlaceHandler, Outlet, Polled, Trouble, show_in_place};
use dr_seq::Event;
use std::sync::Wait;

/// How many events there is room for in the buffer of a worker that has its own, so how many it takes at once, at
/// most. [`consume`] and [`consume_with`] are given their buffer, of any length.
pub const BATCH: usize = 256;

// What a turn of a worker came to.
enum Progress {
    /// A batch was shown and completed, or nothing came.
    GoesOn,
    /// The end was told that the exchange drained.
    Drained,
}

// Waits, where a poll gave nothing.
fn waited<P: Patience>(patience: &mut P) -> Progress
    ensures waits { P.waits patience.old patience.new }
    ensures goes_on { result ≡ GoesOn }
{
    patience.wait();
    Progress::GoesOn
}

// A poll and, for a batch, the handler's calls, the gate and the completion. Where nothing came it waits.
fn turn<E: Copy, R: Wait, O: Outlet<E>, G: Gate, H: InPlaceHandler<E>, P: Patience>(
    rt: &R,
    outlet: &mut O,
    gate: &G,
    passages: &mut Passages,
    handler: &mut H,
    buf: &mut [E],
    patience: &mut P,
) -> Result<Progress, Trouble>
    ensures kept { O.kept outlet.new ≡ O.kept outlet.old }
    ensures takes { SomeCalls (Attends O.does P.waits P.finds) (record { end = outlet.old; patience = patience.old }) (record { end = outlet.new; patience = patience.new }) (TakesBatch (length buf.old) H.goes handler.old handler.new (O.received outlet.old) (O.received outlet.new) (G.may_stop gate.now) (G.must_stop gate.now) passages.old passages.new result) }
    ensures done { OnOk result (WhereShown IsDone (O.received outlet.old) (O.received outlet.new)) }
    ensures waits { result ≢ Err Trouble.Memory }
    ensures drained { IfOk result (λ progress. progress ≡ Drained → O.told outlet.new ≡ true) }
{
    match outlet.poll_into(buf) {
        Ok(Polled::Batch { first, count, end }) => {
            patience.found(count);
            show_in_place(handler, &buf[..count as usize], first, end);
            passages.pass(gate);
            complete(rt, outlet, first + count)?;
            Ok(Progress::GoesOn)
        }
        Ok(Polled::Drained) => Ok(Progress::Drained),
        Ok(Polled::Gating) => Ok(waited(patience)),
        Ok(Polled::Idle) => Ok(waited(patience)),
        Err(Trouble::Memory) => Ok(waited(patience)),
        Err(Trouble::Refused(refusal)) => Err(Trouble::Refused(refusal)),
    }
}

/// Takes a handler through the events that its end hands out, until that is told that the exchange
/// drained: each batch goes to the handler, then the worker passes its gate, then it completes the
/// batch. Where nothing came it waits as `patience` does. A refusal ends the work. A worker that the
/// gate stops goes on without it, and answers `Stopped` at its end.
pub fn consume_with<E: Copy, R: Wait, O: Outlet<E>, G: Gate, H: InPlaceHandler<E>, P: Patience>(
    rt: &R,
    outlet: &mut O,
    gate: &G,
    who: usize,
    handler: &mut H,
    buf: &mut [E],
    patience: &mut P,
) -> Option<WorkFault>
    // It stays the same end.
    ensures kept { O.kept outlet.new ≡ O.kept outlet.old }
    // The handler was shown all events that the end handed out, in order, batch by batch, with the
    // marks that it gave, each poll had the whole buffer's room, and the answer is that of the last call, or
    // that the gate stopped the worker.
    ensures serves { SomeCalls O.does outlet.old outlet.new (Serves (length buf.old) H.goes handler.old handler.new (O.received outlet.old) (O.received outlet.new) (G.may_stop gate.now who) (G.must_stop gate.now who) result) }
    // After each poll the patience was told what came, or was asked to wait.
    ensures bides { SomeCalls (Attends O.does P.waits P.finds) (record { end = outlet.old; patience = patience.old }) (record { end = outlet.new; patience = patience.new }) (Serves (length buf.old) H.goes handler.old handler.new (O.received outlet.old) (O.received outlet.new) (G.may_stop gate.now who) (G.must_stop gate.now who) result) }
    // Without a fault the end was told `Drained`, and where it shows what it took all that came is completed.
    ensures done { IfNone result (WhereShown IsDone (O.received outlet.old) (O.received outlet.new)) }
    ensures drained { IfNone result (O.told outlet.new ≡ true) }
    // It waits where memory runs out, and answers a stop only if its gate may stop it.
    ensures waits { result ≢ Some Memory }
    ensures stopped { result ≡ Some Stopped → MayStop G.may_stop gate.now who }
{
    let mut passages = Passages::new(who);
    for _ in rt.forever() {
        match turn(rt, outlet, gate, &mut passages, handler, buf, patience) {
            Ok(Progress::GoesOn) => (),
            Ok(Progress::Drained) => return passages.at_end(),
            Err(trouble) => return Some(passages.in_trouble(trouble)),
        }
    }
    unreachable!()
}

/// As [`consume_with`], waiting as [`Waiting`] does, with a handler that is given each event by value.
pub fn consume<E: Copy, R: Wait, O: Outlet<E>, G: Gate, H: Handler<E>>(
    rt: &R,
    outlet: &mut O,
    gate: &G,
    who: usize,
    handler: &mut H,
    buf: &mut [E],
) -> Option<WorkFault>
    // It stays the same end.
    ensures kept { O.kept outlet.new ≡ O.kept outlet.old }
    // The handler was shown just the batches of the polls, in order, each completed before the next poll.
    ensures serves { SomeCalls O.does outlet.old outlet.new (Serves (length buf.old) H.goes handler.old handler.new (O.received outlet.old) (O.received outlet.new) (G.may_stop gate.now who) (G.must_stop gate.now who) result) }
    // Without a fault the end was told `Drained`, and where it shows what it took all that came is completed.
    ensures done { IfNone result (WhereShown IsDone (O.received outlet.old) (O.received outlet.new)) }
    ensures drained { IfNone result (O.told outlet.new ≡ true) }
    // It waits where memory runs out, and answers a stop only if its gate may stop it.
    ensures waits { result ≢ Some Memory }
    ensures stopped { result ≡ Some Stopped → MayStop G.may_stop gate.now who }
{
    let mut by_value = ByValue { handler };
    let mut waiting = Waiting::new(buf.len() as u64);
    consume_with(rt, outlet, gate, who, &mut by_value, buf, &mut waiting)
}

/// As [`consume_with`] over an end of two-word events that is the worker's own: it takes up to [`BATCH`] of them at
/// once, and rings the bell with each completion. The end comes back, with the fault if there is one.
pub fn serve<R: Wait, O: Outlet<Event>, G: Gate, H: InPlaceHandler<Event>, B: Rings, P: Patience>(
    rt: &R,
    outlet: O,
    gate: &G,
    who: usize,
    handler: &mut H,
    bell: B,
    patience: &mut P,
) -> (O, Option<WorkFault>)
    // It stays the same end.
    ensures kept { O.kept result.0 ≡ O.kept outlet }
    // The handler was shown just the batches of the polls, each of which had room for 256 events.
    ensures serves { SomeCalls O.does outlet result.0 (Serves 256 H.goes handler.old handler.new (O.received outlet) (O.received result.0) (G.may_stop gate.now who) (G.must_stop gate.now who) result.1) }
    // After each poll the patience was told what came, or was asked to wait.
    ensures bides { SomeCalls (Attends O.does P.waits P.finds) (record { end = outlet; patience = patience.old }) (record { end = result.0; patience = patience.new }) (Serves 256 H.goes handler.old handler.new (O.received outlet) (O.received result.0) (G.may_stop gate.now who) (G.must_stop gate.now who) result.1) }
    // Without a fault the end was told `Drained`, and where it shows what it took all that came is completed.
    ensures done { IfNone result.1 (WhereShown IsDone (O.received outlet) (O.received result.0)) }
    ensures drained { IfNone result.1 (O.told result.0 ≡ true) }
    // It waits where memory runs out, and answers a stop only if its gate may stop it.
    ensures waits { result.1 ≢ Some Memory }
    ensures stopped { result.1 ≡ Some Stopped → MayStop G.may_stop gate.now who }
{
    let mut buffer = [Event::NONE; BATCH];
    let mut ringing = Ringing::new(outlet, bell);
    let fault = consume_with(rt, &mut ringing, gate, who, handler, &mut buffer, patience);
    (ringing.into_end(), fault)
}
