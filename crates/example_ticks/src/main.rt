//! A contract of your own with ends by hand, proved: two recorders, each on a thread of its own, count just the ticks that
//! were sent. Each thread promises that it counts what its end receives, and `settle_all` says that this is what was sent.
#![tactic(auto)]

ghost use Rattle.std.specs.Prelude.{◌≡◌, ◌∷◌, [], length, IfOk};
ghost use Rattle.dr_plain.specs.Calls.Ends.{sent_of};
ghost use Rattle.dr_plain.specs.Calls.Settling.{AreAllEnds};
ghost use Rattle.example_ticks.specs.Promises.{CountedAll};

use dr_graph::{Graph, GraphBuilder, GraphFault};
use dr_meaning::{InPlaceHandler, MAX_LIMIT, Polled};
use dr_plain::{Halter, OpenFault, Receiver, Sender, ring, settle_all};
use dr_seq::{Size, SizeFault};
use dr_workers::{OpenGate, SENDER, Waiting, WorkFault, produce};
use std::alloc::{AllocError, Global};
use std::snapshot::Snapshot;
use std::sync::Wait;
use std::thread::{self, Promise, PromisedHandle, Threads};
use thiserror::Error;

#[derive(Debug, Drop, Error)]
enum Fault {
    #[error("the size: {0}")]
    Size(#[from] SizeFault),
    #[error("the graph: {0}")]
    Graph(#[from] GraphFault),
    #[error("the graph has not two handlers")]
    Handlers,
    #[error("the ring: {0}")]
    Ring(#[from] OpenFault),
    #[error("the sender: {0}")]
    Sender(WorkFault),
    #[error("no memory, or no thread")]
    Memory(#[from(alloc)] AllocError),
}

#[derive(Clone, Copy, Default)]
struct Tick {
    time: u64,
    price: u64,
}

/// Counts the ticks that it is shown, as far as a `u64` counts.
#[derive(Clone, Copy)]
struct Recorder {
    count: u64,
}

impl InPlaceHandler<Tick> for Recorder {
    ghost use Rattle.std.specs.Prelude.{◌≡◌, ◌+◌, ◌%◌, ◌^◌};

    // What one call does. What the recorder holds after all calls follows by a lemma.
    ghost goes = { λ old tick s end new. new.count ≡ (old.count + 1) % 2 ^ 64 };

    fn on_event_in_place(&mut self, _tick: &Tick, _s: u64, _end: bool) {
        self.count = self.count.wrapping_add(1);
    }
}

/// What a recorder's thread gives back.
#[derive(Drop)]
struct Recorded {
    receiver: Receiver<Tick>,
    recorder: Recorder,
}

/// The promise of a thread that is given an end.
#[derive(Drop)]
struct CountsAll(Snapshot<Receiver<Tick>>);

impl Promise<Recorded> for CountsAll {
    ghost kept_by = { λ promise back. CountedAll promise.0.value back };
}

/// Takes a recorder through all ticks of an end, until the ring has drained.
fn record<R: Wait>(rt: &R, mut receiver: Receiver<Tick>) -> Recorded
    ensures { CountedAll receiver result }
{
    let mut recorder = Recorder { count: 0 };
    let mut waiting = Waiting::new(64);
    for _ in rt.forever() {
        match receiver.turn(&mut recorder, 64) {
            Ok(Polled::Batch { count, .. }) => waiting.found(count),
            Ok(Polled::Gating | Polled::Idle) => waiting.wait(),
            Ok(Polled::Drained) => return Recorded { receiver, recorder },
            Err(_) => unreachable!(),
        }
    }
    unreachable!()
}

/// Starts a recorder's thread.
fn start<R: Threads + Wait + Copy + Send + 'static>(
    rt: R,
    receiver: Receiver<Tick>,
) -> Result<PromisedHandle<Recorded, CountsAll>, AllocError>
    ensures { IfOk result (λ thread. thread.promise.0.value ≡ receiver) }
{
    let promise = CountsAll(Snapshot::of(&receiver));
    Ok(thread::spawn_with(&rt, promise, move || record(&rt, receiver))?)
}

/// The ends of a ring of two handlers.
type Ends = (Sender<Tick>, Receiver<Tick>, Receiver<Tick>, Halter<Tick>);

/// A new ring of sixty-four slots.
fn open(alloc: Global, graph: &Graph) -> Result<Ends, Fault>
    ensures all { IfOk result (λ ends. AreAllEnds ends.0 (ends.1 ∷ ends.2 ∷ []) ends.3) }
    ensures fresh { IfOk result (λ ends. ((sent_of ends.0).published ≡ []) × (ends.1.knows.received ≡ []) × (ends.2.knows.received ≡ [])) }
{
    let size = Size::new(64)?;
    let slots = vec![in alloc; Tick::default(); size.get() as usize]?;
    let (sender, mut receivers, halter) = ring(alloc, graph, size, MAX_LIMIT, slots)?;
    match (receivers.pop(), receivers.pop(), receivers.pop()) {
        (Some(second), Some(first), None) => Ok((sender, first, second, halter)),
        _ => Err(Fault::Handlers),
    }
}

/// How many ticks were sent, and how many each of two recorders counted.
#[derive(Clone, Copy)]
struct Counts {
    sent: u64,
    first: u64,
    second: u64,
}

/// Sends ticks to two recorders.
fn counted<R: Threads + Wait + Copy + Send + 'static>(
    rt: R,
    alloc: Global,
    graph: &Graph,
    ticks: &[Tick],
) -> Result<Counts, Fault>
    // All of them were sent, and each recorder counted just these.
    ensures { IfOk result (λ counts. (counts.sent ≡ length ticks.now) × (counts.first ≡ counts.sent) × (counts.second ≡ counts.sent)) }
{
    let (mut sender, first, second, halter) = open(alloc, graph)?;
    let first = start(rt, first)?;
    let Ok(second) = start(rt, second) else {
        // The first thread ends once the ring is closed.
        let _closed = sender.close();
        let _recorded = first.join(&rt);
        return Err(Fault::Memory(AllocError));
    };
    let produced = produce(&rt, &mut sender, &OpenGate, SENDER, ticks, 16);
    let _closed = sender.close();
    let first = first.join(&rt);
    let second = second.join(&rt);
    if let Some(fault) = produced.fault {
        return Err(Fault::Sender(fault));
    }
    // In the graph's order.
    let receivers = vec![in alloc; first.receiver, second.receiver]?;
    let (settled, _ticks) = settle_all(sender, receivers, halter);
    Ok(Counts {
        sent: settled.published(),
        first: first.recorder.count,
        second: second.recorder.count,
    })
}

fn main(rt: HostRuntime) -> Result<(), Fault> {
    let mut builder = GraphBuilder::new(rt.alloc());
    builder.handle_with(&["first", "second"])?;
    let graph = builder.build()?;
    let ticks = vec![in rt.alloc(); Tick::default(); 1000]?;
    let counts = counted(rt, rt.alloc(), &graph, ticks.as_slice())?;
    let _printed = rt.println(&counts.sent);
    let _printed = rt.println(&counts.first);
    let _printed = rt.println(&counts.second);
    Ok(())
}
