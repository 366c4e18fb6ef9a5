//! The rounds of a run in one call: what a ring over plain memory takes with its threads, and with a sender that leaves
//! no claim open.

ghost use Rattle.std.specs.Prelude.{◌≡◌};
ghost use Rattle.dr_plain.specs.Calls.Ends.{sender_place};

use crate::MOST_TURNS;
use crate::arguments::Order;
use crate::fault::Fault;
use crate::measured::Round;
use crate::sum::{Sum, sum_of_first};
use crate::threads::in_stretch;
use crate::width::{Made, Words};
use dr_disruptor::{LiveSender, WaitStrategy, Way, run};
use dr_plain::Sender;
use std::alloc::Global;
use std::rt::Clock;
use std::sync::Wait;
use std::thread::Threads;
use std::time::Instant;

/// An event of two words.
type Pair = Words<1>;

/// Sends for about so long, and answers since when it did, and how many events there were.
fn send_for<R: Wait + Copy>(
    clock: &impl Clock,
    sender: &mut LiveSender<R, Sender<Pair>>,
    order: &Order,
) -> Result<(Instant, u64), Fault>
    ensures { sender_place sender.new ≡ sender_place sender.old }
{
    let claim = order.claim().max(1);
    let stretch = in_stretch(claim);
    let mut events = 0u64;
    let begun = Instant::now(clock)?;
    for _ in 0..MOST_TURNS {
        let first = events;
        sender.publish_each(stretch, claim, move |event: &mut Pair, k| {
            *event = Pair::at(first.wrapping_add(k));
        })?;
        events = events.wrapping_add(stretch);
        if begun.elapsed(clock)? >= order.time {
            return Ok((begun, events));
        }
    }
    Err(Fault::NO_END)
}

fn check_sums(sums: &[Sum], wanted: u64) -> Result<(), Fault> {
    for sum in sums {
        if sum.total != wanted {
            return Err(Fault::WRONG_SUM);
        }
    }
    Ok(())
}

/// One round over a ring of its own.
pub fn round(
    rt: impl Clock + Threads + Wait + Copy + Send + 'static,
    alloc: Global,
    order: &Order,
) -> Result<Round, Fault> {
    let shape = order.topology.shape;
    let graph = shape.graph(alloc)?;
    let events = vec![in alloc; Pair::at(0); order.size.get() as usize]?;
    let sums = vec![in alloc; Sum { total: 0 }; shape.handlers()]?;
    let way = Way::by(WaitStrategy::Yielding);
    let ran = run(rt, alloc, &graph, order.size, events, sums, way, |sender| {
        send_for(&rt, sender, order)
    })?;
    let (begun, events) = ran.sent?;
    let time = begun.elapsed(&rt)?;
    check_sums(ran.handlers.as_slice(), sum_of_first(events))?;
    Ok(Round { events, time })
}
