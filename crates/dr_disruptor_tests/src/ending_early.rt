//! Of several closures one ends early: by an answer of its own, or by halting the ring.

use crate::checks::{chain, check, size};
use crate::work::Count;
use dr_disruptor::{LiveSender, WaitStrategy, Way, run_senders};
use dr_meaning::Refusal;
use dr_plain_senders::Sender;
use std::alloc::Global;
use std::process::Abort;
use std::sync::atomic::{AtomicU64, Ordering};
use std::sync::{Arc, Wait};
use std::thread::Threads;

/// How many events came of closures, and what each answered.
type Came = (Count, Vec<Result<(), Refusal>>);

/// Three closures, of which the one in the middle answers a refusal of its own, and sends nothing.
fn with_an_error<R: Threads + Wait + Abort + Copy + Send + 'static>(rt: R, alloc: Global) -> Came {
    let graph = chain(&rt, alloc);
    let size = size(&rt, 8);
    let events = vec![in alloc; 0u64; 8].expect(&rt, "memory");
    let mut feeds = Vec::new(alloc);
    for number in 0..3u64 {
        let pushed = feeds.push(move |sender: &mut LiveSender<R, Sender<u64>>| {
            if number == 1 {
                return Err(Refusal::NotClaimed);
            }
            sender.publish_each(3, 3, |event: &mut u64, _k| *event = number)
        });
        pushed.expect(&rt, "memory");
    }
    let both = (Count(0), Count(0));
    let way = Way::by(WaitStrategy::Yielding);
    let ran = run_senders(rt, alloc, &graph, size, events, both, way, feeds);
    let ran = ran.expect(&rt, "a run");
    check(&rt, ran.settled.claimed(), 6);
    (ran.handlers.1, ran.sent)
}

#[test]
fn an_error_of_one_closure_stops_no_other(rt: HostRuntime) {
    let (count, sent) = with_an_error(rt, rt.alloc());
    check(&rt, count, Count(6));
    let wanted = [Ok(()), Err(Refusal::NotClaimed), Ok(())];
    check(&rt, sent.as_slice(), &wanted[..]);
}

/// Waits until the ring is halted.
fn wait_for<R: Wait>(rt: &R, halted: &AtomicU64) {
    for _ in rt.forever() {
        if halted.load(Ordering::SeqCst) == 1 {
            return;
        }
    }
    unreachable!()
}

/// Two closures, of which the first sends its events and halts the ring, and the other then begins.
fn with_a_halt<R: Threads + Wait + Abort + Copy + Send + 'static>(rt: R, alloc: Global) -> Came {
    let graph = chain(&rt, alloc);
    let size = size(&rt, 8);
    let events = vec![in alloc; 0u64; 8].expect(&rt, "memory");
    let halted = Arc::new(alloc, AtomicU64::new(0)).expect(&rt, "memory");
    let mut feeds = Vec::new(alloc);
    for number in 0..2u64 {
        let halted = Arc::try_clone(&halted).expect(&rt, "memory");
        let pushed = feeds.push(move |sender: &mut LiveSender<R, Sender<u64>>| {
            if number == 1 {
                wait_for(&rt, &halted);
                return sender.publish_with(|event| *event = 7);
            }
            let sent = sender.publish_each(3, 3, |event: &mut u64, k| *event = k);
            sender.halt();
            halted.store(1, Ordering::SeqCst);
            sent
        });
        pushed.expect(&rt, "memory");
    }
    let both = (Count(0), Count(0));
    let way = Way::by(WaitStrategy::Parking);
    let ran = run_senders(rt, alloc, &graph, size, events, both, way, feeds);
    let ran = ran.expect(&rt, "a run");
    check(&rt, ran.settled.claimed(), 3);
    (ran.handlers.1, ran.sent)
}

#[test]
fn once_a_closure_halts_the_others_are_refused(rt: HostRuntime) {
    let (count, sent) = with_a_halt(rt, rt.alloc());
    check(&rt, count, Count(3));
    let wanted = [Ok(()), Err(Refusal::Halted)];
    check(&rt, sent.as_slice(), &wanted[..]);
}
