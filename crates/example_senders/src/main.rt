//! Two senders and a handler, each on a thread of its own, over one ring and without a lock. What they
//! send is of a type of this program's.
#![tactic(auto)]

use dr_graph::{Graph, GraphBuilder, GraphFault};
use dr_meaning::{Handler, MAX_LIMIT};
use dr_plain_senders::{Halter, Receiver, Sender, ring};
use dr_seq::Size;
use dr_workers::{OpenGate, Waiting, WorkFault, consume, produce_with};
use std::alloc::Global;
use std::process::ExitCode;
use std::sync::Wait;
use std::thread::{self, JoinHandle, Threads};
use thiserror::Error;

/// How many slots the ring has.
const SLOTS: u64 = 64;

#[derive(Clone, Copy, Debug, Error)]
enum Fault {
    #[error("the graph: {0}")]
    Graph(GraphFault),
    #[error("a worker: {0}")]
    Work(WorkFault),
    #[error("no memory, or no thread")]
    Memory,
}

/// What a sender sends.
#[derive(Clone, Copy)]
struct Sale {
    shop: u16,
    pieces: u32,
    pence: u64,
}

impl Sale {
    /// What lies in a slot before the first sale does.
    const NONE: Sale = Sale {
        shop: 0,
        pieces: 0,
        pence: 0,
    };
}

/// Adds up what was taken.
#[derive(Drop)]
struct Till {
    pence: u64,
}

impl Handler<Sale> for Till {
    ghost use Rattle.std.specs.Prelude.{◌≡◌, ◌+◌, ◌%◌, ◌^◌};

    ghost goes = { λ old sale s end new. new.pence ≡ (old.pence + sale.pence) % 2 ^ 64 };

    fn on_event(&mut self, sale: Sale, _s: u64, _end: bool) {
        self.pence = self.pence.wrapping_add(sale.pence);
    }
}

/// The work of the handler: it ends when the ring has drained.
fn add_up<R: Wait>(rt: &R, mut receiver: Receiver<Sale>) -> Result<u64, Fault> {
    let mut till = Till { pence: 0 };
    let mut buffer = [Sale::NONE; 64];
    match consume(rt, &mut receiver, &OpenGate, 0, &mut till, &mut buffer) {
        None => Ok(till.pence),
        Some(fault) => Err(Fault::Work(fault)),
    }
}

/// The work of a sender: it sends a script in claims of up to eight events. It waits for room, and for the
/// other sender, by one `Waiting` of the ring's size, which finds out how long to pause.
fn send<R: Wait>(
    rt: &R,
    mut sender: Sender<Sale>,
    who: usize,
    script: &[Sale],
) -> Result<(), Fault> {
    let mut waiting = Waiting::new(SLOTS);
    match produce_with(rt, &mut sender, &OpenGate, who, script, 8, &mut waiting).fault {
        None => Ok(()),
        Some(fault) => Err(Fault::Work(fault)),
    }
}

fn graph(alloc: Global) -> Result<Graph, GraphFault> {
    let mut builder = GraphBuilder::new(alloc);
    builder.handle_with(&["till"])?;
    builder.build()
}

/// What came of a worker, if its thread was started.
fn joined<T: Drop, R: Threads, E: Drop>(
    rt: &R,
    worker: Result<JoinHandle<Result<T, Fault>>, E>,
) -> Result<T, Fault> {
    match worker {
        Ok(worker) => worker.join(rt),
        Err(_) => Err(Fault::Memory),
    }
}

/// Two senders send a script each, one on a thread of its own and one on this.
fn send_both<R: Threads + Wait + Sync>(
    rt: &R,
    one: Sender<Sale>,
    other: Sender<Sale>,
    script: &[Sale],
) -> Result<(), Fault> {
    thread::scope(thread::scope_env(), rt, move |scope| -> Result<(), Fault> {
        let one = scope.spawn(move || send(rt, one, 16, script));
        let sent = send(rt, other, 17, script);
        joined(rt, one)?;
        sent
    })
}

/// Sends a script twice, by two senders, and gives what the handler added up.
fn exchange<R: Threads + Wait + Sync>(
    rt: &R,
    mut senders: Vec<Sender<Sale>>,
    receiver: Receiver<Sale>,
    halter: &mut Halter<Sale>,
    script: &[Sale],
) -> Result<u64, Fault> {
    let (Some(one), Some(other)) = (senders.pop(), senders.pop()) else {
        return Err(Fault::Memory);
    };
    thread::scope(
        thread::scope_env(),
        rt,
        move |scope| -> Result<u64, Fault> {
            let handler = scope.spawn(move || add_up(rt, receiver));
            if handler.is_err() {
                // Nobody would make room for the senders.
                halter.halt();
            }
            let sent = send_both(rt, one, other, script);
            // The handler is told that the ring drained once it has all that was claimed before.
            halter.halt();
            let total = joined(rt, handler)?;
            sent?;
            Ok(total)
        },
    )
}

/// The senders, the receivers and the halter of a ring.
type Ends = (Vec<Sender<Sale>>, Vec<Receiver<Sale>>, Halter<Sale>);

/// The ends of a ring with two senders.
fn open(alloc: Global, graph: &Graph) -> Option<Ends> {
    let size = Size::new(SLOTS).ok()?;
    let sales = vec![in alloc; Sale::NONE; size.get() as usize].ok()?;
    ring(alloc, graph, size, MAX_LIMIT, 2, sales).ok()
}

fn run<R: Threads + Wait + Sync>(rt: &R, alloc: Global) -> Result<u64, Fault> {
    let graph = graph(alloc).map_err(Fault::Graph)?;
    let script = [Sale {
        shop: 1,
        pieces: 2,
        pence: 350,
    }; 100];
    match open(alloc, &graph) {
        Some((senders, mut receivers, mut halter)) => match receivers.pop() {
            Some(receiver) => exchange(rt, senders, receiver, &mut halter, script.as_slice()),
            None => Err(Fault::Memory),
        },
        None => Err(Fault::Memory),
    }
}

fn main(rt: HostRuntime) -> ExitCode {
    match run(&rt, rt.alloc()) {
        Ok(total) => {
            let _printed = rt.println(&total);
            ExitCode::SUCCESS
        }
        Err(fault) => {
            let _printed = rt.eprintln(&fault);
            ExitCode::FAILURE
        }
    }
}
