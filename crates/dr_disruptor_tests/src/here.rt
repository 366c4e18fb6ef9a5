//! A run on one thread: when handlers have their turns, and which events are marked.

ghost use Rattle.std.specs.Prelude.{◌<◌};

use crate::checks::{chain, check, size};
use crate::work::{Count, Tally};
use dr_disruptor::{ClaimFault, Feed, InPlaceInlet, LiveSender, WaitStrategy, Way, run_here};
use dr_meaning::Refusal;
use std::alloc::Global;
use std::process::Abort;
use std::sync::Wait;

/// Sends ten events, one at a time.
#[derive(Clone, Copy)]
pub struct Ten;

impl Feed<u64> for Ten {
    ghost use Rattle.std.specs.Prelude.{⊤};

    type Answer = Result<(), Refusal>;

    ghost gives = { λ feed answer old new. ⊤ };

    fn feed<R: Wait + Copy, I: InPlaceInlet<Event = u64>>(
        self,
        sender: &mut LiveSender<R, I>,
    ) -> Result<(), Refusal> {
        sender.publish_each(10, 1, |event: &mut u64, _k| *event = 1)
    }
}

/// The handlers of a ring of four slots, after ten events.
fn after_ten(rt: &(impl Wait + Abort + Copy), alloc: Global, way: Way) -> (Tally, Count)
    requires { 0 < way.batch }
{
    let graph = chain(rt, alloc);
    let size = size(rt, 4);
    let events = vec![in alloc; 0u64; 4].expect(rt, "memory");
    let both = (Tally::default(), Count(0));
    let ran = run_here(*rt, alloc, &graph, size, events, both, way, Ten);
    let ran = ran.expect(rt, "a run");
    check(rt, ran.sent, Ok(()));
    check(rt, ran.settled.published(), 10);
    ran.handlers
}

#[test]
fn each_turn_ends_with_a_mark(rt: HostRuntime) {
    let (tally, count) = after_ten(&rt, rt.alloc(), Way::by(WaitStrategy::Spinning));
    let wanted = Tally {
        sum: 10,
        marked: 379,
    };
    check(&rt, tally, wanted);
    check(&rt, count, Count(10));
}

#[test]
fn in_batches_only_the_last_event_is_marked(rt: HostRuntime) {
    let way = Way::by(WaitStrategy::Spinning).in_batches(3);
    let (tally, count) = after_ten(&rt, rt.alloc(), way);
    check(&rt, tally, Tally { sum: 10, marked: 9 });
    check(&rt, count, Count(10));
}

/// Tries to send five events, and what the last is refused with again and again.
#[derive(Clone, Copy)]
struct Tries;

impl Feed<u64> for Tries {
    ghost use Rattle.std.specs.Prelude.{⊤};

    type Answer = [Result<(), ClaimFault>; 3];

    ghost gives = { λ feed answer old new. ⊤ };

    fn feed<R: Wait + Copy, I: InPlaceInlet<Event = u64>>(
        self,
        sender: &mut LiveSender<R, I>,
    ) -> [Result<(), ClaimFault>; 3] {
        let first = sender.try_publish_with(|event| *event = 1);
        let second = sender.try_publish_with(|event| *event = 2);
        let third = sender.try_publish_with(|event| *event = 3);
        [first, second, third]
    }
}

#[test]
fn a_try_without_room_gives_a_turn(rt: HostRuntime) {
    let alloc = rt.alloc();
    let graph = chain(&rt, alloc);
    let size = size(&rt, 1);
    let events = vec![in alloc; 0u64].expect(&rt, "memory");
    let both = (Tally::default(), Count(0));
    let way = Way::by(WaitStrategy::Spinning);
    let ran = run_here(rt, alloc, &graph, size, events, both, way, Tries);
    let ran = ran.expect(&rt, "a run");
    let no_room = Err(ClaimFault::Refused(Refusal::NoRoom));
    check(&rt, ran.sent, [Ok(()), no_room, Ok(())]);
    check(&rt, ran.handlers.0.sum, 4);
    check(&rt, ran.handlers.1, Count(2));
}
