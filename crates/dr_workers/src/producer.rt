//! The worker of a producer.

ghost use Rattle.std.specs.Prelude.{◌≡◌, ℕ, ◌<◌, ◌≤◌, [], length, take, IfNone, OnErr, OnOk, Some};
ghost use Rattle.dr_meaning.specs.Calls.Calling.{SomeCalls};
ghost use Rattle.dr_meaning.specs.Calls.Ends.{WhereShown};
ghost use Rattle.dr_workers.specs.declared.fault.WorkFault.TheVariants.{Stopped};
ghost use Rattle.dr_workers.specs.Calls.Serving.{Sends};
ghost use Rattle.dr_workers.specs.Calls.Stops.{MayStop};
ghost use Rattle.dr_workers.specs.Calls.Waits.{Provides};
ghost use Rattle.dr_workers.specs.Inside.Retries.{SendsPart};
ghost use Rattle.dr_workers.specs.Meaning.Work.{Adds, LeavesNothingOpen};

use crate::fault::WorkFault;
use crate::gate::Gate;
use crate::passages::Passages;
use crate::patience::Patience;
use crate::retries::{claim, publish, write_all};
use crate::waiting::Waiting;
use dr_meaning::{Claimed, Inlet, Trouble};
use std::sync::Wait;

/// How much of its script a worker sent, and why not all of it or what stopped it.
#[derive(Clone, Copy, Debug, PartialEq, Eq)]
pub struct Produced {
    /// How many events were published.
    pub sent: u64,
    /// Why not all of the script was sent, or that the gate stopped the worker.
    pub fault: Option<WorkFault>,
}

impl Produced {
    // Of a worker that published so many events.
    fn of(sent: usize, fault: Option<WorkFault>) -> Produced
        ensures sent { result.sent ≡ sent }
        ensures fault { result.fault ≡ fault }
    {
        Produced {
            sent: sent as u64,
            fault,
        }
    }
}

// Claims, passes the gate, writes and publishes some events.
fn send<E: Copy, R: Wait, I: Inlet<E>, G: Gate, P: Patience>(
    rt: &R,
    inlet: &mut I,
    gate: &G,
    passages: &mut Passages,
    events: &[E],
    patience: &mut P,
    room: &mut u64,
) -> Result<(), Trouble>
    ensures kept { I.kept inlet.new ≡ I.kept inlet.old }
    ensures sent { OnOk result (WhereShown (Adds events.now) (I.sent inlet.old) (I.sent inlet.new)) }
    ensures fault { OnErr result (WhereShown (Adds []) (I.sent inlet.old) (I.sent inlet.new)) }
    ensures open { WhereShown LeavesNothingOpen (I.sent inlet.old) (I.sent inlet.new) }
    ensures sends { SomeCalls (Provides I.does P.waits P.finds) (record { end = inlet.old; patience = patience.old; room = room.old }) (record { end = inlet.new; patience = patience.new; room = room.new }) (SendsPart events.now (G.may_stop gate.now) (G.must_stop gate.now) passages.old passages.new result) }
{
    let n = events.len() as u64;
    let Claimed { lo, hi } = claim(rt, inlet, n, patience, room)?;
    passages.pass(gate);
    write_all(rt, inlet, lo, events)?;
    publish(rt, inlet, lo, hi)
}

/// Sends a script in claims of up to `cut` events, each once there is room: a claim, the worker's
/// gate, the writes, and the publication. A refusal ends the work, and so does running out of memory for a
/// claim: the fault is what the last call answered. It waits for room as `patience` does, which it tells
/// before each wait how many events found room since the one before. A worker that the gate stops goes
/// on without it, and answers `Stopped` at its end.
pub fn produce_with<E: Copy, R: Wait, I: Inlet<E>, G: Gate, P: Patience>(
    rt: &R,
    inlet: &mut I,
    gate: &G,
    who: usize,
    script: &[E],
    cut: u64,
    patience: &mut P,
) -> Produced
    requires cut { 0 < cut }
    // At each claim without room the patience was told how many events found room since the last one, and asked to wait.
    ensures bides { (room : ℕ) × SomeCalls (Provides I.does P.waits P.finds) (record { end = inlet.old; patience = patience.old; room = 0 }) (record { end = inlet.new; patience = patience.new; room = room }) (Sends cut script.now (G.may_stop gate.now who) (G.must_stop gate.now who) result) }
    // It stays the same end, and where it shows what it sent, just the script's first events are added.
    ensures kept { I.kept inlet.new ≡ I.kept inlet.old }
    ensures sent { WhereShown (Adds (take result.sent script.now)) (I.sent inlet.old) (I.sent inlet.new) }
    // Whatever the answer, if no claim was open that the end shows, none is.
    ensures open { WhereShown LeavesNothingOpen (I.sent inlet.old) (I.sent inlet.new) }
    // It says how many of the script's events it sent: all of them, without a fault.
    ensures within { result.sent ≤ length script.now }
    ensures all { IfNone result.fault (result.sent ≡ length script.now) }
    // It answers a stop only if its gate may stop it.
    ensures stopped { result.fault ≡ Some Stopped → MayStop G.may_stop gate.now who }
    // It made just the calls of the script, part after part, until all was sent or a call failed for good.
    ensures sends { SomeCalls I.does inlet.old inlet.new (Sends cut script.now (G.may_stop gate.now who) (G.must_stop gate.now who) result) }
{
    let mut passages = Passages::new(who);
    let mut sent = 0;
    // How many events found room since it last waited.
    let mut room = 0;
    while sent < script.len() {
        let n = ((script.len() - sent) as u64).min(cut) as usize;
        let part = &script[sent..sent + n];
        match send(rt, inlet, gate, &mut passages, part, patience, &mut room) {
            Ok(()) => sent += n,
            Err(trouble) => return Produced::of(sent, Some(passages.in_trouble(trouble))),
        }
    }
    Produced::of(sent, passages.at_end())
}

/// As [`produce_with`], waiting as [`Waiting`] does.
pub fn produce<E: Copy, R: Wait, I: Inlet<E>, G: Gate>(
    rt: &R,
    inlet: &mut I,
    gate: &G,
    who: usize,
    script: &[E],
    cut: u64,
) -> Produced
    requires cut { 0 < cut }
    // It stays the same end, and where it shows what it sent, just the script's first events are added.
    ensures kept { I.kept inlet.new ≡ I.kept inlet.old }
    ensures sent { WhereShown (Adds (take result.sent script.now)) (I.sent inlet.old) (I.sent inlet.new) }
    // Whatever the answer, if no claim was open that the end shows, none is.
    ensures open { WhereShown LeavesNothingOpen (I.sent inlet.old) (I.sent inlet.new) }
    // It says how many of the script's events it sent: all of them, without a fault.
    ensures within { result.sent ≤ length script.now }
    ensures all { IfNone result.fault (result.sent ≡ length script.now) }
    // It answers a stop only if its gate may stop it.
    ensures stopped { result.fault ≡ Some Stopped → MayStop G.may_stop gate.now who }
    // It made just the calls of the script, part after part, until all was sent or a call failed for good.
    ensures sends { SomeCalls I.does inlet.old inlet.new (Sends cut script.now (G.may_stop gate.now who) (G.must_stop gate.now who) result) }
{
    let mut waiting = Waiting::new(cut);
    produce_with(rt, inlet, gate, who, script, cut, &mut waiting)
}
