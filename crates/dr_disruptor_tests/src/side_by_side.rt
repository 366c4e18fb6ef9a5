//! Closures that run side by side, each with a sender of its own.

use crate::checks::{chain, check, size};
use crate::work::{Count, InOrder, Mixing};
use dr_disruptor::{LiveSender, RunFault, WaitStrategy, Way, run_senders};
use dr_meaning::Refusal;
use dr_plain_senders::Sender;
use std::alloc::Global;
use std::process::Abort;
use std::sync::atomic::{AtomicU64, Ordering};
use std::sync::{Arc, Wait};
use std::thread::Threads;

/// How many events each of two closures sends.
const MANY: u64 = 2000;

/// What each closure answers.
type Answers = Vec<Result<(), Refusal>>;

/// What two closures come to, of which each sends that many ones or twos.
fn mixed<R: Threads + Wait + Abort + Copy + Send + 'static>(
    rt: R,
    alloc: Global,
) -> (Mixing, Answers) {
    let graph = chain(&rt, alloc);
    let size = size(&rt, 4);
    let events = vec![in alloc; 0u64; 4].expect(&rt, "memory");
    let mut feeds = Vec::new(alloc);
    for number in [1u64, 2] {
        let pushed = feeds.push(move |sender: &mut LiveSender<R, Sender<u64>>| {
            sender.publish_each(MANY, 1, |event: &mut u64, _k| *event = number)
        });
        pushed.expect(&rt, "memory");
    }
    let both = (Mixing::default(), Count(0));
    let way = Way::by(WaitStrategy::Yielding);
    let ran = run_senders(rt, alloc, &graph, size, events, both, way, feeds);
    let ran = ran.expect(&rt, "a run");
    (ran.handlers.0, ran.sent)
}

/// Were one closure to send all before the other, all of its events would come alone.
#[test]
fn closures_send_side_by_side(rt: HostRuntime) {
    let (mixing, sent) = mixed(rt, rt.alloc());
    check(&rt, [mixing.ones, mixing.twos], [MANY, MANY]);
    check(&rt, mixing.alone < MANY, true);
    check(&rt, sent.as_slice(), &[Ok(()), Ok(())][..]);
}

fn none_called(rt: &impl Abort, alloc: Global) -> Arc<AtomicU64, Global> {
    Arc::new(alloc, AtomicU64::new(0)).expect(rt, "memory")
}

/// Waits until so many were called.
fn wait_for<R: Wait>(rt: &R, called: &AtomicU64, many: u64) {
    for _ in rt.forever() {
        if called.load(Ordering::SeqCst) == many {
            return;
        }
    }
    unreachable!()
}

/// What two handlers come to of a closure that counts from 0 and one that counts from 100, each of which first waits for
/// the other to be called.
fn met<R: Threads + Wait + Abort + Copy + Send + 'static>(
    rt: R,
    alloc: Global,
) -> (InOrder, Count) {
    let graph = chain(&rt, alloc);
    let size = size(&rt, 2);
    let events = vec![in alloc; 0u64; 2].expect(&rt, "memory");
    let called = none_called(&rt, alloc);
    let mut feeds = Vec::new(alloc);
    for first in [0u64, 100] {
        let called = Arc::try_clone(&called).expect(&rt, "memory");
        let pushed = feeds.push(move |sender: &mut LiveSender<R, Sender<u64>>| {
            called.fetch_add(1, Ordering::SeqCst);
            wait_for(&rt, &called, 2);
            sender.publish_each(3, 1, |event: &mut u64, k| *event = k.wrapping_add(first))
        });
        pushed.expect(&rt, "memory");
    }
    let both = (InOrder::default(), Count(0));
    let way = Way::by(WaitStrategy::Parking);
    let ran = run_senders(rt, alloc, &graph, size, events, both, way, feeds);
    ran.expect(&rt, "a run").handlers
}

#[test]
fn closures_may_wait_for_one_another(rt: HostRuntime) {
    let (order, count) = met(rt, rt.alloc());
    let wanted = InOrder {
        low: 3,
        high: 103,
        is_broken: false,
    };
    check(&rt, order, wanted);
    check(&rt, count, Count(6));
}

/// How many of so many closures, each of which sends an event, were called, and how many events came, or the fault.
fn called<R: Threads + Wait + Abort + Copy + Send + 'static>(
    rt: R,
    alloc: Global,
    many: u64,
) -> (u64, Result<Count, RunFault>) {
    let graph = chain(&rt, alloc);
    let size = size(&rt, 4);
    let events = vec![in alloc; 0u64; 4].expect(&rt, "memory");
    let called = none_called(&rt, alloc);
    let mut feeds = Vec::new(alloc);
    for number in 0..many {
        let called = Arc::try_clone(&called).expect(&rt, "memory");
        let pushed = feeds.push(move |sender: &mut LiveSender<R, Sender<u64>>| {
            called.fetch_add(1, Ordering::SeqCst);
            sender.publish_with(|event| *event = number)
        });
        pushed.expect(&rt, "memory");
    }
    let both = (Count(0), Count(0));
    let way = Way::by(WaitStrategy::Parking);
    let count = match run_senders(rt, alloc, &graph, size, events, both, way, feeds) {
        Ok(ran) => Ok(ran.handlers.1),
        Err(fault) => Err(fault),
    };
    (called.load(Ordering::SeqCst), count)
}

#[test]
fn sixteen_closures_are_each_called(rt: HostRuntime) {
    let (calls, ran) = called(rt, rt.alloc(), 16);
    check(&rt, calls, 16);
    check(&rt, ran.expect(&rt, "a run"), Count(16));
}

#[test]
fn closures_of_another_number_are_not_called(rt: HostRuntime) {
    let (calls, ran) = called(rt, rt.alloc(), 17);
    check(&rt, calls, 0);
    assert!(&rt; matches!(ran, Err(RunFault::Senders { given: 17 })));
}
