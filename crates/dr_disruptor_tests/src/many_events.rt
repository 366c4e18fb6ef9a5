//! Many events through a diamond, many rounds of its ring.

ghost use Rattle.std.specs.Prelude.{◌<◌};

use crate::checks::{check, diamond, size};
use crate::work::InOrder;
use dr_disruptor::{WaitStrategy, Way, run};
use std::alloc::Global;
use std::process::Abort;
use std::sync::Wait;
use std::thread::Threads;

/// What the handlers of a diamond come to of the numbers below a thousand.
fn through<R: Threads + Wait + Abort + Copy + Send + 'static>(
    rt: R,
    alloc: Global,
    way: Way,
) -> Vec<InOrder>
    requires { 0 < way.batch }
{
    let graph = diamond(&rt, alloc);
    let size = size(&rt, 8);
    let events = vec![in alloc; 0u64; 8].expect(&rt, "memory");
    let handlers = vec![in alloc; InOrder::default(); 3].expect(&rt, "memory");
    let ran = run(rt, alloc, &graph, size, events, handlers, way, |sender| {
        sender.publish_each(1000, 3, |event: &mut u64, k| *event = k)
    });
    let ran = ran.expect(&rt, "a run");
    check(&rt, ran.sent, Ok(()));
    ran.handlers
}

#[test]
fn a_thousand_numbers_in_their_order(rt: HostRuntime) {
    let wanted = InOrder {
        low: 1000,
        high: 100,
        is_broken: false,
    };
    let way = Way::by(WaitStrategy::Yielding);
    let handlers = through(rt, rt.alloc(), way);
    check(&rt, handlers.as_slice(), &[wanted; 3][..]);
    let handlers = through(rt, rt.alloc(), way.in_batches(2));
    check(&rt, handlers.as_slice(), &[wanted; 3][..]);
}
