//! Calls of ends that are tried again while they have to wait.

ghost use Rattle.std.specs.Prelude.{◌≡◌, ◌≢◌, ◌+◌, ◌^◌, ◌≤◌, [], length, Err, Ok, IfOk, OnErr, OnOk};
ghost use Rattle.dr_meaning.specs.Calls.Calling.{SomeCalls, TriesClaim, PublishesStretch, CompletesBelow};
ghost use Rattle.dr_meaning.specs.Calls.Ends.{Claims, Completes, GivesStretch, PublishAnswers, Publishes, WhereShown, WritesAll};
ghost use Rattle.dr_workers.specs.Meaning.Work.{Adds};
ghost use Rattle.dr_workers.specs.Calls.Waits.{Provides};
ghost use Rattle.dr_workers.specs.Inside.Retries.{Retries, WriteCalls};
ghost use Rattle.dr_workers.specs.Inside.Writes.{MayRefuse};

use crate::patience::{Patience, wait_for_room};
use crate::waiting::Waiting;
use dr_meaning::{Claimed, Inlet, Outlet, Refusal, Trouble};
use std::sync::Wait;

/// Claims the next `n` sequences, once there is room. `room` is how many events found room since the last wait, these too
/// once they are claimed.
pub(crate) fn claim<E: Copy, R: Wait, I: Inlet<E>, P: Patience>(
    rt: &R,
    inlet: &mut I,
    n: u64,
    patience: &mut P,
    room: &mut u64,
) -> Result<Claimed, Trouble>
    ensures kept { I.kept inlet.new ≡ I.kept inlet.old }
    ensures stretch { IfOk result (λ c. GivesStretch n (Ok c)) }
    ensures claimed { IfOk result (λ c. WhereShown (Claims n (Ok c)) (I.sent inlet.old) (I.sent inlet.new)) }
    ensures fault { OnErr result (I.sent inlet.new ≡ I.sent inlet.old) }
    ensures waits { result ≢ Err (Trouble.Refused Refusal.NoRoom) }
    ensures called { SomeCalls (Provides I.does P.waits P.finds) (record { end = inlet.old; patience = patience.old; room = room.old }) (record { end = inlet.new; patience = patience.new; room = room.new }) (Retries (TriesClaim n (Err (Trouble.Refused Refusal.NoRoom))) (TriesClaim n result)) }
{
    for _ in rt.forever() {
        match inlet.try_claim(n) {
            Ok(claimed) => {
                *room = room.saturating_add(n);
                return Ok(claimed);
            }
            Err(Trouble::Refused(Refusal::NoRoom)) => wait_for_room(patience, room),
            Err(trouble) => return Err(trouble),
        }
    }
    unreachable!()
}

/// Writes events to the claimed sequences from `lo` on, once there is memory for the calls.
pub(crate) fn write_all<E: Copy, R: Wait, I: Inlet<E>>(
    rt: &R,
    inlet: &mut I,
    lo: u64,
    events: &[E],
) -> Result<(), Trouble>
    requires limit { lo + length events.now ≤ 2 ^ 62 }
    ensures kept { I.kept inlet.new ≡ I.kept inlet.old }
    ensures written { OnOk result (WhereShown (WritesAll lo events.now) (I.sent inlet.old) (I.sent inlet.new)) }
    ensures fault { OnErr result (WhereShown (Adds []) (I.sent inlet.old) (I.sent inlet.new)) }
    ensures called { SomeCalls I.does inlet.old inlet.new (WriteCalls lo events.now result) }
    ensures refused { (r : Refusal) → result ≡ Err (Trouble.Refused r) → MayRefuse lo (length events.now) (I.sent inlet.old) }
    ensures waits { result ≢ Err Trouble.Memory }
{
    let mut waiting = Waiting::new(1);
    let mut done = 0;
    for _ in rt.forever() {
        let wrote = inlet.write_all(lo + done as u64, &events[done..]);
        done += wrote.count;
        match wrote.trouble {
            None => return Ok(()),
            Some(Trouble::Memory) => waiting.wait(),
            Some(refused) => return Err(refused),
        }
    }
    unreachable!()
}

/// Publishes a claimed stretch, once there is memory for the call.
pub(crate) fn publish<E: Copy, R: Wait, I: Inlet<E>>(
    rt: &R,
    inlet: &mut I,
    lo: u64,
    hi: u64,
) -> Result<(), Trouble>
    ensures kept { I.kept inlet.new ≡ I.kept inlet.old }
    ensures answer { PublishAnswers (I.sent inlet.old) lo hi result }
    ensures published { OnOk result (WhereShown (Publishes lo hi (Ok tt)) (I.sent inlet.old) (I.sent inlet.new)) }
    ensures fault { OnErr result (I.sent inlet.new ≡ I.sent inlet.old) }
    ensures waits { result ≢ Err Trouble.Memory }
    ensures called { SomeCalls I.does inlet.old inlet.new (Retries (PublishesStretch lo hi (Err Trouble.Memory)) (PublishesStretch lo hi result)) }
{
    let mut waiting = Waiting::new(1);
    for _ in rt.forever() {
        match inlet.publish(lo, hi) {
            Ok(()) => return Ok(()),
            Err(Trouble::Memory) => waiting.wait(),
            Err(Trouble::Refused(refusal)) => return Err(Trouble::Refused(refusal)),
        }
    }
    unreachable!()
}

/// Completes all events below `upto`, once there is memory for the call.
pub(crate) fn complete<E: Copy, R: Wait, O: Outlet<E>>(
    rt: &R,
    outlet: &mut O,
    upto: u64,
) -> Result<(), Trouble>
    ensures kept { O.kept outlet.new ≡ O.kept outlet.old }
    ensures told { O.told outlet.new ≡ O.told outlet.old }
    ensures completed { OnOk result (WhereShown (Completes upto (Ok tt)) (O.received outlet.old) (O.received outlet.new)) }
    ensures fault { OnErr result (O.received outlet.new ≡ O.received outlet.old) }
    ensures waits { result ≢ Err Trouble.Memory }
    ensures called { SomeCalls O.does outlet.old outlet.new (Retries (CompletesBelow upto (Err Trouble.Memory)) (CompletesBelow upto result)) }
{
    let mut waiting = Waiting::new(1);
    for _ in rt.forever() {
        match outlet.complete(upto) {
            Err(Trouble::Memory) => waiting.wait(),
            answer => return answer,
        }
    }
    unreachable!()
}
