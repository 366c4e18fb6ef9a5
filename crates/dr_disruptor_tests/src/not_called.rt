//! Where a run is refused no handler is called.

use crate::checks::{chain, check, diamond, size};
use crate::here::Ten;
use crate::work::Calls;
use dr_disruptor::{WaitStrategy, Way, run, run_here};
use dr_graph::Graph;
use std::alloc::Global;
use std::process::Abort;
use std::sync::atomic::{AtomicU64, Ordering};
use std::sync::{Arc, Wait};
use std::thread::Threads;

fn no_calls(rt: &impl Abort, alloc: Global) -> Arc<AtomicU64, Global> {
    Arc::new(alloc, AtomicU64::new(0)).expect(rt, "memory")
}

/// Two handlers that count their calls there.
fn both(rt: &impl Abort, calls: &Arc<AtomicU64, Global>) -> (Calls, Calls) {
    let first = Arc::try_clone(calls).expect(rt, "memory");
    let second = Arc::try_clone(calls).expect(rt, "memory");
    (Calls(first), Calls(second))
}

/// How often two handlers were called, over a graph that may have more, and whether the run was refused.
fn called<R: Threads + Wait + Abort + Copy + Send + 'static>(
    rt: R,
    alloc: Global,
    graph: &Graph,
) -> (u64, bool) {
    let size = size(&rt, 4);
    let events = vec![in alloc; 0u64; 4].expect(&rt, "memory");
    let calls = no_calls(&rt, alloc);
    let both = both(&rt, &calls);
    let way = Way::by(WaitStrategy::Parking);
    let ran = run(rt, alloc, graph, size, events, both, way, |sender| {
        sender.publish_each(10, 1, |event: &mut u64, k| *event = k)
    });
    (calls.load(Ordering::SeqCst), ran.is_err())
}

/// The same on this thread.
fn called_here<R: Wait + Abort + Copy>(rt: R, alloc: Global, graph: &Graph) -> (u64, bool) {
    let size = size(&rt, 4);
    let events = vec![in alloc; 0u64; 4].expect(&rt, "memory");
    let calls = no_calls(&rt, alloc);
    let both = both(&rt, &calls);
    let way = Way::by(WaitStrategy::Spinning);
    let ran = run_here(rt, alloc, graph, size, events, both, way, Ten);
    (calls.load(Ordering::SeqCst), ran.is_err())
}

#[test]
fn handlers_of_another_number_are_not_called(rt: HostRuntime) {
    let (chain, diamond) = (chain(&rt, rt.alloc()), diamond(&rt, rt.alloc()));
    check(&rt, called(rt, rt.alloc(), &diamond), (0, true));
    check(&rt, called(rt, rt.alloc(), &chain), (20, false));
    check(&rt, called_here(rt, rt.alloc(), &diamond), (0, true));
    check(&rt, called_here(rt, rt.alloc(), &chain), (20, false));
}
