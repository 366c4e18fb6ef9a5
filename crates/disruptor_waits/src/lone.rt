//! Events that are sent one by one, each once the one before was taken.

use crate::clock::{micros_since, pause};
use crate::fault::Fault;
use crate::pair::{Taken, takers};
use crate::runs::run;
use crate::times::{Notes, Times};
use dr_disruptor::{Feed, InPlaceInlet, LiveSender, WaitStrategy};
use dr_meaning::Refusal;
use dr_workers::Patience;
use std::alloc::Global;
use std::sync::{Arc, Wait};
use std::thread::Threads;
use std::time::{Clock, Instant};

/// The slots of the ring.
const SLOTS: u64 = 64;

// Waits until an event was taken.
fn await_taken<R: Wait, P: Patience>(rt: &R, patience: &mut P, taken: &Taken, number: u64) {
    for _ in rt.forever() {
        if taken.is(number) {
            patience.found(1);
            return;
        }
        patience.wait();
    }
    unreachable!()
}

/// So many events, of which the second handler shows what it took.
#[derive(Drop)]
struct Lone<'a, C> {
    rt: C,
    strategy: WaitStrategy,
    events: u64,
    taken: &'a Taken,
    notes: &'a Notes,
}

impl<C: Wait + Clock + Drop> Feed<u64> for Lone<'_, C> {
    ghost use Rattle.std.specs.Prelude.{⊤};

    type Answer = Result<(), Refusal>;

    ghost gives = { λ lone answer old new. ⊤ };

    // Each event is sent, awaited until it was taken, and noted.
    fn feed<R: Wait + Copy, I: InPlaceInlet<Event = u64>>(
        self,
        sender: &mut LiveSender<R, I>,
    ) -> Result<(), Refusal> {
        let rt = &self.rt;
        let mut waits = self.strategy.begin(rt, self.taken.bell(), 1);
        for number in 1..=self.events {
            pause(rt, number);
            let begun = Instant::now(rt).ok();
            sender.publish_with(|event| *event = number)?;
            await_taken(rt, &mut waits, self.taken, number);
            self.notes.note(micros_since(rt, begun).unwrap_or(u64::MAX));
        }
        Ok(())
    }
}

/// Sends so many events through two handlers, and tells how long each took until the second had it.
pub fn send<R: Threads + Wait + Clock + Copy + Send + 'static>(
    rt: R,
    alloc: Global,
    strategy: WaitStrategy,
    events: u64,
) -> Result<Times, Fault> {
    let taken = Arc::new(alloc, Taken::new())?;
    let handlers = takers(alloc, &taken)?;
    let notes = Notes::new();
    let lone = Lone {
        rt,
        strategy,
        events,
        taken: &taken,
        notes: &notes,
    };
    run(rt, alloc, SLOTS, handlers, strategy, lone)?;
    Ok(notes.times())
}
