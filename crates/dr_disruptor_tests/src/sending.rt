//! Each call of a run's sender, once.

ghost use Rattle.std.specs.Prelude.{◌≡◌, ◌<◌};
ghost use Rattle.dr_plain.specs.Calls.Ends.{sender_place};

use crate::checks::{check, diamond, size};
use crate::work::Tally;
use dr_disruptor::{LiveSender, RunOutcome, WaitStrategy, Way, run};
use dr_plain::{Sender, Settled};
use std::alloc::Global;
use std::process::Abort;
use std::sync::Wait;
use std::thread::Threads;

const LAST: [u64; 3] = [10, 11, 12];

/// What came of some numbers over a diamond.
type Numbers = RunOutcome<u64, Vec<Tally>, Settled<u64>, u64>;

/// Sends the numbers from 1 to 5, the first two one at a time.
fn one_by_one<R: Threads + Wait + Abort + Copy + Send + 'static>(
    rt: R,
    alloc: Global,
    way: Way,
) -> Numbers
    requires { 0 < way.batch }
{
    let graph = diamond(&rt, alloc);
    let size = size(&rt, 4);
    let events = vec![in alloc; 0u64; 4].expect(&rt, "memory");
    let tallies = vec![in alloc; Tally::default(); 3].expect(&rt, "memory");
    let send = |sender: &mut LiveSender<R, Sender<u64>>|
        ensures { sender_place sender.new ≡ sender_place sender.old }
    {
        check(&rt, sender.published(), 0);
        check(&rt, sender.publish_with(|event| *event = 1), Ok(()));
        check(&rt, sender.try_publish_with(|event| *event = 2), Ok(()));
        let each = sender.publish_each(3, 2, |event: &mut u64, k| *event = k.wrapping_add(3));
        check(&rt, each, Ok(()));
        sender.published()
    };
    let ran = run(rt, alloc, &graph, size, events, tallies, way, send);
    ran.expect(&rt, "a run")
}

/// Sends the numbers from 1 to 4 in one claim, and then those from 10 to 12.
fn together<R: Threads + Wait + Abort + Copy + Send + 'static>(
    rt: R,
    alloc: Global,
    way: Way,
) -> Numbers
    requires { 0 < way.batch }
{
    let graph = diamond(&rt, alloc);
    let size = size(&rt, 4);
    let events = vec![in alloc; 0u64; 4].expect(&rt, "memory");
    let tallies = vec![in alloc; Tally::default(); 3].expect(&rt, "memory");
    let ran = run(rt, alloc, &graph, size, events, tallies, way, |sender| {
        let mut next = 1u64;
        let batch = sender.publish_batch(
            4,
            &mut |event: &mut u64, _k| {
                *event = next;
                next = next.wrapping_add(1);
            },
        );
        check(&rt, batch, Ok(()));
        let script = sender.publish_all(&LAST, 2);
        check(&rt, script, Ok(()));
        sender.published()
    });
    ran.expect(&rt, "a run")
}

/// So many numbers were sent, whose sum is this for each handler, and that of those that lie in the ring at last.
fn check_sent(rt: &impl Abort, ran: Numbers, many: u64, sum: u64, last: u64) {
    check(rt, ran.sent, many);
    check(rt, ran.settled.claimed(), many);
    check(rt, ran.settled.published(), many);
    for tally in ran.handlers.iter() {
        check(rt, tally.sum, sum);
    }
    let mut events = ran.events;
    let mut left = 0u64;
    for _ in 0..4 {
        left = left.wrapping_add(events.next().unwrap_or(0));
    }
    check(rt, events.next(), None);
    check(rt, left, last);
}

/// Both runs.
fn check_both<R: Threads + Wait + Abort + Copy + Send + 'static>(rt: R, alloc: Global, way: Way)
    requires { 0 < way.batch }
{
    check_sent(&rt, one_by_one(rt, alloc, way), 5, 15, 14);
    check_sent(&rt, together(rt, alloc, way), 7, 43, 37);
}

#[test]
fn each_call_by_yielding(rt: HostRuntime) {
    check_both(rt, rt.alloc(), Way::by(WaitStrategy::Yielding));
}

#[test]
fn each_call_by_spinning_in_batches(rt: HostRuntime) {
    let way = Way::by(WaitStrategy::Spinning).in_batches(1);
    check_both(rt, rt.alloc(), way);
}

#[test]
fn each_call_by_parking(rt: HostRuntime) {
    check_both(rt, rt.alloc(), Way::by(WaitStrategy::Parking));
}
