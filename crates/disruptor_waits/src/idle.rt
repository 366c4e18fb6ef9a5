//! Handlers that have nothing to do.

use crate::fault::Fault;
use crate::pair::idlers;
use crate::runs::run;
use dr_disruptor::{Feed, InPlaceInlet, LiveSender, WaitStrategy};
use dr_meaning::Refusal;
use std::alloc::Global;
use std::sync::Wait;
use std::thread::{Threads, sleep};
use std::time::{Clock, Duration};

/// The slots of the ring.
const SLOTS: u64 = 64;

/// So many seconds without an event.
#[derive(Drop)]
struct Rest<R> {
    clock: R,
    seconds: u64,
}

impl<C: Clock + Drop> Feed<u64> for Rest<C> {
    ghost use Rattle.std.specs.Prelude.{⊤};

    type Answer = Result<(), Refusal>;

    ghost gives = { λ rest answer old new. ⊤ };

    fn feed<R: Wait + Copy, I: InPlaceInlet<Event = u64>>(
        self,
        _sender: &mut LiveSender<R, I>,
    ) -> Result<(), Refusal> {
        sleep(&self.clock, Duration::from_secs(self.seconds));
        Ok(())
    }
}

/// Leaves two handlers without an event for so many seconds.
pub fn wait<R: Threads + Wait + Clock + Copy + Send + 'static>(
    rt: R,
    alloc: Global,
    strategy: WaitStrategy,
    seconds: u64,
) -> Result<(), Fault> {
    let handlers = idlers(alloc)?;
    let rest = Rest { clock: rt, seconds };
    run(rt, alloc, SLOTS, handlers, strategy, rest)
}
