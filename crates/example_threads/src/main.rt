//! A sender and two handlers, each on a thread of its own, over a ring.
#![tactic(auto)]

use dr_graph::{Graph, GraphBuilder, GraphFault};
use dr_meaning::{Handler, MAX_LIMIT};
use dr_ring::{Receiver, Sender, ring};
use dr_seq::{Event, Size};
use dr_workers::{OpenGate, WorkFault, consume, produce};
use std::alloc::Global;
use std::process::ExitCode;
use std::sync::Wait;
use std::thread::{self, JoinHandle, Threads};
use thiserror::Error;

/// The most events of a claim: a quarter of the ring.
const CUT: u64 = 16;

#[derive(Clone, Copy, Debug, Error)]
enum Fault {
    #[error("the graph: {0}")]
    Graph(GraphFault),
    #[error("a worker: {0}")]
    Work(WorkFault),
    #[error("no memory, or no thread")]
    Memory,
}

/// Adds up the first words of what it is shown.
#[derive(Drop)]
struct Adder {
    total: u64,
}

impl Handler<Event> for Adder {
    ghost use Rattle.std.specs.Prelude.{◌≡◌, ◌+◌, ◌%◌, ◌^◌};

    ghost goes = { λ old event s end new. new.total ≡ (old.total + event.first) % 2 ^ 64 };

    fn on_event(&mut self, event: Event, _s: u64, _end: bool) {
        self.total = self.total.wrapping_add(event.first);
    }
}

/// The work of one handler: it ends when the ring has drained.
fn add_up<R: Wait>(rt: &R, mut receiver: Receiver, who: usize) -> Result<u64, Fault> {
    let mut adder = Adder { total: 0 };
    let mut buffer = [Event::NONE; 64];
    match consume(rt, &mut receiver, &OpenGate, who, &mut adder, &mut buffer) {
        None => Ok(adder.total),
        Some(fault) => Err(Fault::Work(fault)),
    }
}

fn declare(builder: &mut GraphBuilder) -> Result<(), GraphFault> {
    let first = builder.handle_with(&["first"])?;
    builder.then(&first, &["second"])?;
    Ok(())
}

fn graph(alloc: Global) -> Result<Graph, GraphFault> {
    let mut builder = GraphBuilder::new(alloc);
    declare(&mut builder)?;
    builder.build()
}

/// Sends a script if both handlers are there to receive it, and closes the ring: they end once it has drained, which it
/// does only when it is closed. No claim is open by then, even where the sender was refused.
fn send_and_close<R: Wait>(
    rt: &R,
    mut sender: Sender,
    script: &[Event],
    is_received: bool,
) -> Result<(), Fault> {
    let sent = if is_received {
        produce(rt, &mut sender, &OpenGate, 16, script, CUT).fault
    } else {
        None
    };
    let _closed = sender.close();
    match sent {
        None => Ok(()),
        Some(fault) => Err(Fault::Work(fault)),
    }
}

/// What a handler added up, if its thread was started.
fn total<R: Threads, E: Drop>(
    rt: &R,
    handler: Result<JoinHandle<Result<u64, Fault>>, E>,
) -> Result<u64, Fault> {
    match handler {
        Ok(handler) => handler.join(rt),
        Err(_) => Err(Fault::Memory),
    }
}

/// Sends a script through two handlers, and gives what each added up.
fn exchange<R: Threads + Wait + Sync>(
    rt: &R,
    sender: Sender,
    mut receivers: Vec<Receiver>,
    script: &[Event],
) -> Result<(u64, u64), Fault> {
    let (Some(second), Some(first)) = (receivers.pop(), receivers.pop()) else {
        return Err(Fault::Memory);
    };
    thread::scope(
        thread::scope_env(),
        rt,
        move |scope| -> Result<(u64, u64), Fault> {
            let first = scope.spawn(move || add_up(rt, first, 0));
            let second = scope.spawn(move || add_up(rt, second, 1));
            let sent = send_and_close(rt, sender, script, first.is_ok() && second.is_ok());
            let totals = (total(rt, first), total(rt, second));
            sent?;
            Ok((totals.0?, totals.1?))
        },
    )
}

/// The ends of a ring of sixty-four slots.
fn open(alloc: Global, graph: &Graph) -> Option<(Sender, Vec<Receiver>)> {
    let size = Size::new(64).ok()?;
    let (sender, receivers, _halter) = ring(alloc, graph, size, MAX_LIMIT).ok()?;
    Some((sender, receivers))
}

fn run<R: Threads + Wait + Sync>(rt: &R, alloc: Global) -> Result<(u64, u64), Fault> {
    let graph = graph(alloc).map_err(Fault::Graph)?;
    let script = [Event {
        first: 1,
        second: 0,
    }; 100];
    match open(alloc, &graph) {
        Some((sender, receivers)) => exchange(rt, sender, receivers, script.as_slice()),
        None => Err(Fault::Memory),
    }
}

fn main(rt: HostRuntime) -> ExitCode {
    match run(&rt, rt.alloc()) {
        Ok((first, second)) => {
            let _printed = rt.println(&first);
            let _printed = rt.println(&second);
            ExitCode::SUCCESS
        }
        Err(fault) => {
            let _printed = rt.eprintln(&fault);
            ExitCode::FAILURE
        }
    }
}
