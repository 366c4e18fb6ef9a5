//! Events that are sent as fast as they are taken.

use crate::fault::Fault;
use crate::pair::idlers;
use crate::runs::run;
use dr_disruptor::{Feed, InPlaceInlet, LiveSender, WaitStrategy};
use dr_meaning::Refusal;
use std::alloc::Global;
use std::num::NonZeroU64;
use std::sync::Wait;
use std::thread::Threads;

/// The slots of the ring.
const SLOTS: u64 = 1024;

/// So many thousand events, in claims of up to `cut`.
#[derive(Clone, Copy)]
struct Thousands {
    count: u64,
    cut: NonZeroU64,
}

impl Feed<u64> for Thousands {
    ghost use Rattle.std.specs.Prelude.{⊤};

    type Answer = Result<(), Refusal>;

    ghost gives = { λ thousands answer old new. ⊤ };

    fn feed<R: Wait + Copy, I: InPlaceInlet<Event = u64>>(
        self,
        sender: &mut LiveSender<R, I>,
    ) -> Result<(), Refusal> {
        for _ in 0..self.count {
            sender.publish_each(1000, self.cut.get(), |event: &mut u64, k| *event = k)?;
        }
        Ok(())
    }
}

/// Sends so many thousand events, in claims of up to `cut`, through two handlers that do nothing.
pub fn send<R: Threads + Wait + Copy + Send + 'static>(
    rt: R,
    alloc: Global,
    strategy: WaitStrategy,
    thousands: u64,
    cut: NonZeroU64,
) -> Result<(), Fault> {
    let handlers = idlers(alloc)?;
    let feed = Thousands {
        count: thousands,
        cut,
    };
    run(rt, alloc, SLOTS, handlers, strategy, feed)
}
