//! Lone events over a ring of one slot, whose workers park: each is sent once the last handler completed the one before.

use crate::fault::Fault;
use crate::pair::idlers;
use crate::runs::run;
use crate::stopwatch::Stopwatch;
use crate::times::Times;
use dr_disruptor::{Feed, InPlaceInlet, LiveSender, WaitStrategy};
use dr_meaning::Refusal;
use std::alloc::Global;
use std::sync::Wait;
use std::thread::Threads;
use std::time::Clock;

/// So many events, each of which is timed once it has its slot.
#[derive(Drop)]
struct Timed<'a, C> {
    events: u64,
    stopwatch: &'a Stopwatch<C>,
}

impl<C: Clock> Feed<u64> for Timed<'_, C> {
    ghost use Rattle.std.specs.Prelude.{⊤};

    type Answer = Result<(), Refusal>;

    ghost gives = { λ timed answer old new. ⊤ };

    fn feed<R: Wait + Copy, I: InPlaceInlet<Event = u64>>(
        self,
        sender: &mut LiveSender<R, I>,
    ) -> Result<(), Refusal> {
        sender.publish_each(
            self.events,
            1,
            |_event: &mut u64, turn| self.stopwatch.pass(turn),
        )
    }
}

/// Sends so many events, and one more, whose room tells that the last of them is completed. It tells how long they took.
pub fn send<R: Threads + Wait + Clock + Copy + Send + 'static>(
    rt: R,
    alloc: Global,
    events: u64,
) -> Result<Times, Fault> {
    let stopwatch = Stopwatch::new(rt);
    let timed = Timed {
        events: events.saturating_add(1),
        stopwatch: &stopwatch,
    };
    let handlers = idlers(alloc)?;
    run(rt, alloc, 1, handlers, WaitStrategy::Parking, timed)?;
    Ok(stopwatch.times())
}
