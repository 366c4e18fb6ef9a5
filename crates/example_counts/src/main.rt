//! A promise of your own, proved: what a recorder counts on its thread is just the number of ticks that were sent.
#![tactic(auto)]

ghost use Rattle.std.specs.Prelude.{◌≡◌, IfOk};

use dr_disruptor::{InPlaceHandler, RunFault, WaitStrategy, Way, new_events, run};
use dr_graph::{Graph, GraphBuilder};
use dr_seq::Size;
use std::alloc::Global;
use std::sync::Wait;
use std::thread::Threads;

#[derive(Clone, Copy, Default)]
struct Tick {
    time: u64,
    price: u64,
}

/// Counts the ticks that it is shown, as far as a `u64` counts.
#[derive(Clone, Copy, Default)]
struct Recorder {
    count: u64,
}

impl InPlaceHandler<Tick> for Recorder {
    ghost use Rattle.std.specs.Prelude.{◌≡◌, ◌+◌, ◌%◌, ◌^◌};

    // What one call does. What the recorder holds after all calls follows by a lemma.
    ghost goes = { λ old tick s end new. new.count ≡ (old.count + 1) % 2 ^ 64 };

    fn on_event_in_place(&mut self, _tick: &Tick, _s: u64, _end: bool) {
        self.count = self.count.wrapping_add(1);
    }
}

/// How many ticks were sent, and how many each of two recorders counted.
#[derive(Clone, Copy)]
struct Counts {
    sent: u64,
    first: u64,
    second: u64,
}

/// Sends so many ticks to two recorders.
fn counted<R: Threads + Wait + Copy + Send + 'static>(
    rt: R,
    alloc: Global,
    graph: &Graph,
    ticks: u64,
) -> Result<Counts, RunFault>
    // Each of them counted just the ticks that were sent.
    ensures { IfOk result (λ counts. (counts.first ≡ counts.sent) × (counts.second ≡ counts.sent)) }
{
    let size = Size::new(64)?;
    let slots = new_events(alloc, size, || Ok(Tick::default()))?;
    let recorders = (Recorder::default(), Recorder::default());
    let way = Way::by(WaitStrategy::Parking);
    let ran = run(rt, alloc, graph, size, slots, recorders, way, |sender| {
        sender.publish_each(ticks, 16, |tick: &mut Tick, k| tick.time = k)
    })?;
    ran.sent?;
    let (first, second) = ran.handlers;
    Ok(Counts {
        sent: ran.settled.published(),
        first: first.count,
        second: second.count,
    })
}

fn main(rt: HostRuntime) -> Result<(), RunFault> {
    let mut builder = GraphBuilder::new(rt.alloc());
    builder.handle_with(&["first", "second"])?;
    let graph = builder.build()?;
    let counts = counted(rt, rt.alloc(), &graph, 1000)?;
    let _printed = rt.println(&counts.sent);
    let _printed = rt.println(&counts.first);
    let _printed = rt.println(&counts.second);
    Ok(())
}
