//! Readings go to an archive and then to an alert, with the sender on this thread: where the ring is full each handler has a
//! turn. The handlers are of one type, an enum.
#![tactic(auto)]

use dr_disruptor::{
    Feed, InPlaceHandler, InPlaceInlet, LiveSender, Refusal, RunFault, WaitStrategy, Way,
    new_events, run_here,
};
use dr_graph::GraphBuilder;
use dr_seq::Size;
use std::sync::Wait;

/// What each handler does with a reading: handlers that stand in one list are of one type.
#[derive(Drop)]
enum Stage {
    /// Adds up all readings.
    Archive(u64),
    /// Counts those above 90.
    Alert(u64),
}

impl InPlaceHandler<u64> for Stage {
    ghost use Rattle.std.specs.Prelude.{◌≡◌};
    ghost use Rattle.example_here.specs.Stages.{stage_after};

    ghost goes = { λ old reading s end new. new ≡ stage_after old reading };

    fn on_event_in_place(&mut self, reading: &u64, _s: u64, _end: bool) {
        match self {
            Stage::Archive(sum) => *sum = sum.wrapping_add(*reading),
            Stage::Alert(count) => {
                if *reading > 90 {
                    *count = count.wrapping_add(1);
                }
            }
        }
    }
}

/// Sends the readings below `count`.
#[derive(Clone, Copy)]
struct Readings {
    count: u64,
}

impl Feed<u64> for Readings {
    ghost use Rattle.std.specs.Prelude.{⊤};

    type Answer = Result<(), Refusal>;

    ghost gives = { λ readings answer old new. ⊤ };

    fn feed<R: Wait + Copy, I: InPlaceInlet<Event = u64>>(
        self,
        sender: &mut LiveSender<R, I>,
    ) -> Result<(), Refusal> {
        sender.publish_each(self.count, 4, |reading: &mut u64, k| *reading = k)
    }
}

fn main(rt: HostRuntime) -> Result<(), RunFault> {
    let (alloc, size) = (rt.alloc(), Size::new(8)?);
    let mut builder = GraphBuilder::new(alloc);
    let archive = builder.handle_with(&["archive"])?;
    builder.then(&archive, &["alert"])?;
    let graph = builder.build()?;
    let readings = new_events(alloc, size, || Ok(0u64))?;
    let stages = vec![in alloc; Stage::Archive(0), Stage::Alert(0)]?;
    let way = Way::by(WaitStrategy::Spinning);
    let send = Readings { count: 101 };
    let ran = run_here(rt, alloc, &graph, size, readings, stages, way, send)?;
    ran.sent?;
    for stage in ran.handlers.iter() {
        let _printed = match stage {
            Stage::Archive(sum) => rt.println(sum),
            Stage::Alert(count) => rt.println(count),
        };
    }
    Ok(())
}
