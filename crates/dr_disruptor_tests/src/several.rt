//! Several closures, each with a sender of its own on a thread of its own.

ghost use Rattle.std.specs.Prelude.{◌<◌};

use crate::checks::{chain, check, size};
use crate::work::{Count, InOrder};
use dr_disruptor::{LiveSender, RunFault, WaitStrategy, Way, run_senders};
use dr_meaning::Refusal;
use dr_plain_senders::Sender;
use std::alloc::Global;
use std::process::Abort;
use std::sync::Wait;
use std::thread::Threads;

/// What a closure answers: how its calls ended, and how many events it published.
type Answer = (Result<(), Refusal>, u64);

/// What two handlers came to, and what two closures answered, of which one counts from 0 and one from 100.
fn merged<R: Threads + Wait + Abort + Copy + Send + 'static>(
    rt: R,
    alloc: Global,
    way: Way,
) -> (InOrder, Count, Vec<Answer>)
    requires { 0 < way.batch }
{
    let graph = chain(&rt, alloc);
    let size = size(&rt, 2);
    let events = vec![in alloc; 0u64; 2].expect(&rt, "memory");
    let mut feeds = Vec::new(alloc);
    for first in [0u64, 100] {
        let pushed = feeds.push(move |sender: &mut LiveSender<R, Sender<u64>>| {
            let sent = sender.publish_each(5, 1, |event: &mut u64, k| {
                *event = k.wrapping_add(first);
            });
            (sent, sender.published())
        });
        pushed.expect(&rt, "memory");
    }
    let both = (InOrder::default(), Count(0));
    let ran = run_senders(rt, alloc, &graph, size, events, both, way, feeds);
    let ran = ran.expect(&rt, "a run");
    check(&rt, ran.settled.claimed(), 10);
    let (order, count) = ran.handlers;
    (order, count, ran.sent)
}

#[test]
fn two_closures_merge(rt: HostRuntime) {
    let way = Way::by(WaitStrategy::Parking);
    let (order, count, sent) = merged(rt, rt.alloc(), way);
    let wanted = InOrder {
        low: 5,
        high: 105,
        is_broken: false,
    };
    check(&rt, order, wanted);
    check(&rt, count, Count(10));
    check(&rt, sent.as_slice(), &[(Ok(()), 5), (Ok(()), 5)][..]);
}

#[test]
fn a_closure_halts_the_ring(rt: HostRuntime) {
    let alloc = rt.alloc();
    let graph = chain(&rt, alloc);
    let size = size(&rt, 2);
    let events = vec![in alloc; 0u64; 2].expect(&rt, "memory");
    let halts = move |sender: &mut LiveSender<HostRuntime, Sender<u64>>| {
        let first = sender.publish_with(|event| *event = 1);
        sender.halt();
        let second = sender.publish_with(|event| *event = 2);
        (first, second)
    };
    let feeds = vec![in alloc; halts].expect(&rt, "memory");
    let both = (InOrder::default(), Count(0));
    let way = Way::by(WaitStrategy::Yielding);
    let ran = run_senders(rt, alloc, &graph, size, events, both, way, feeds);
    let ran = ran.expect(&rt, "a run");
    check(
        &rt,
        ran.sent.as_slice(),
        &[(Ok(()), Err(Refusal::Halted))][..],
    );
    check(&rt, ran.handlers.1, Count(1));
}

#[test]
fn no_closure(rt: HostRuntime) {
    let alloc = rt.alloc();
    let graph = chain(&rt, alloc);
    let size = size(&rt, 2);
    let events = vec![in alloc; 0u64; 2].expect(&rt, "memory");
    let mut feeds = vec![in alloc;
        |sender: &mut LiveSender<HostRuntime, Sender<u64>>| sender.published(),
    ].expect(&rt, "memory");
    feeds.clear();
    let both = (InOrder::default(), Count(0));
    let way = Way::by(WaitStrategy::Yielding);
    let ran = run_senders(rt, alloc, &graph, size, events, both, way, feeds);
    let fault = ran.err().expect(&rt, "a fault");
    assert!(rt; matches!(fault, RunFault::Senders { given: 0 }));
}
