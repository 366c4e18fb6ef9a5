//! Two senders and two handlers, one of which follows the other, each on a thread of its own, behind one lock, with the
//! list of events that the history has at the end.
#![tactic(auto)]

use dr_disruptor_lock::{RunFault, RunOutcome, WaitStrategy, run_locked};
use dr_graph::{Graph, GraphBuilder};
use dr_meaning::InPlaceHandler;
use dr_seq::{Event, Size};
use std::alloc::Global;
use std::process::ExitCode;
use std::sync::Wait;
use std::thread::Threads;

/// Adds up the first words of what it is shown.
#[derive(Drop)]
struct Adder {
    total: u64,
}

impl InPlaceHandler<Event> for Adder {
    ghost use Rattle.std.specs.Prelude.{◌≡◌, ◌+◌, ◌%◌, ◌^◌};

    ghost goes = { λ old event s end new. new.total ≡ (old.total + event.first) % 2 ^ 64 };

    fn on_event_in_place(&mut self, event: &Event, _s: u64, _end: bool) {
        self.total = self.total.wrapping_add(event.first);
    }
}

fn graph(alloc: Global) -> Result<Graph, RunFault> {
    let mut builder = GraphBuilder::new(alloc);
    let first = builder.handle_with(&["first"])?;
    builder.then(&first, &["second"])?;
    Ok(builder.build()?)
}

/// Sends a hundred ones and a hundred twos through the handlers of a graph, each by a sender of its own.
fn send<R: Threads + Wait + Sync>(rt: &R, alloc: Global) -> Result<RunOutcome<Adder>, RunFault> {
    let adders = vec![in alloc; Adder { total: 0 }, Adder { total: 0 }]?;
    let ones = vec![in alloc; Event {
        first: 1,
        second: 0
    }; 100]?;
    let twos = vec![in alloc; Event {
        first: 2,
        second: 0
    }; 100]?;
    let scripts = vec![in alloc; ones, twos]?;
    let size = Size::new(64)?;
    let graph = graph(alloc)?;
    run_locked(
        rt,
        alloc,
        graph,
        size,
        adders,
        scripts,
        WaitStrategy::Parking,
    )
}

fn main(rt: HostRuntime) -> ExitCode {
    let Ok(ran) = send(&rt, rt.alloc()) else {
        return ExitCode::FAILURE;
    };
    let Ok((adders, list)) = ran.finished() else {
        return ExitCode::FAILURE;
    };
    let _printed = rt.println(&list.len());
    for adder in adders.iter() {
        let _printed = rt.println(&adder.total);
    }
    ExitCode::SUCCESS
}
