//! The worker of a handler of a replay over the ring.

ghost use Rattle.std.specs.Prelude.{◌≡◌};
ghost use Rattle.dr_reports.specs.Keeping.{Keeps, error_of};

use dr_accounts::{Reporter, part};
use dr_meaning::ByValue;
use dr_ring::Receiver;
use dr_seq::Size;
use dr_workers::{BATCH, Bell, Gate, Parking, WorkFault, serve};
use std::alloc::Global;
use std::marker::PhantomData;
use std::snapshot::Snapshot;
use std::sync::Wait;
use std::thread::Promise;

/// What a worker gives back: its end, and its handler's part of the report or why there is none.
#[derive(Drop)]
pub struct Worked {
    pub receiver: Receiver,
    pub part: Result<String, WorkFault>,
}

impl Worked {
    /// Its fault, if it has one.
    pub fn fault(&self) -> Option<WorkFault>
        ensures { result ≡ error_of self.now.part }
    {
        match self.part {
            Ok(_) => None,
            Err(fault) => Some(fault),
        }
    }
}

/// The promise of the worker `who` that is given an end and passes a gate, and whose handler is a `P`.
pub struct PartOf<P, G> {
    end: Snapshot<Receiver>,
    gate: Snapshot<G>,
    who: usize,
    of: PhantomData<P>,
}

impl<P, G> PartOf<P, G> {
    pub fn of(end: &Receiver, gate: &G, who: usize) -> PartOf<P, G>
        // It keeps the end, the gate and the worker's number.
        ensures end { result.end.value ≡ end.now }
        ensures gate { result.gate.value ≡ gate.now }
        ensures who { result.who ≡ who }
    {
        PartOf {
            end: Snapshot::of(end),
            gate: Snapshot::of(gate),
            who,
            of: PhantomData,
        }
    }
}

impl<P, G> Drop for PartOf<P, G> {
    fn drop(self) {
        let PartOf {
            end: _,
            gate: _,
            who: _,
            of: _,
        } = self;
    }
}

impl<P: Reporter, G: Gate> Promise<Worked> for PartOf<P, G> {
    ghost kept_by = { λ p r. Keeps P.goes P.is_new P.failed P.part_of (G.may_stop p.gate.value p.who) (G.must_stop p.gate.value p.who) p.end.value r };
}

/// Takes a new handler through all events of an end, up to 256 of them at once. A handler that finds
/// no memory holds up no other worker: it goes on without taking any more. It parks where nothing
/// comes, as one that may be handed a whole ring of `size`, and rings the bell with each completion.
pub fn work<R: Wait, G: Gate, P: Reporter>(
    rt: &R,
    gate: &G,
    who: usize,
    receiver: Receiver,
    size: Size,
    alloc: Global,
    bell: &Bell,
) -> Worked
    // A text is the part of all that the end received; a fault is what its calls came to, or of memory.
    ensures { Keeps P.goes P.is_new P.failed P.part_of (G.may_stop gate.now who) (G.must_stop gate.now who) receiver result }
{
    let handler = P::begin(alloc);
    let mut by_value = ByValue { handler };
    let mut parking = Parking::new(rt, bell, size.get().min(BATCH as u64));
    let (receiver, fault) = serve(rt, receiver, gate, who, &mut by_value, bell, &mut parking);
    let part = match (part(by_value.handler, alloc), fault) {
        (Err(_), _) => Err(WorkFault::Memory),
        (Ok(_), Some(fault)) => Err(fault),
        (Ok(text), None) => Ok(text),
    };
    Worked { receiver, part }
}
