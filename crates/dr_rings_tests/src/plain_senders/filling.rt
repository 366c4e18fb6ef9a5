//! One closure fills event after event where they lie, of those that its sender claimed.

use super::open;
use crate::checks::check;
use crate::graphs::Shape;
use dr_meaning::Polled::Batch;
use dr_meaning::{Claimed, MAX_LIMIT, Refusal};
use dr_plain_senders::{Receiver, Sender};
use std::process::Abort;

// Two events, each by its number and by how often the closure was called.
fn fill_two(rt: &impl Abort, sender: &mut Sender<u64>) {
    let mut calls = 0u64;
    let mut fill = |event: &mut u64, number: u64| {
        calls = calls.wrapping_add(1);
        *event = number.wrapping_add(calls);
    };
    check(rt, sender.try_claim(2), Ok(Claimed { lo: 0, hi: 1 }));
    check(rt, sender.update_by(0, &mut fill, 0), Ok(()));
    let refused = sender.update_by(2, &mut fill, 9);
    check(rt, refused, Err(Refusal::NotClaimed));
    check(rt, sender.update_by(1, &mut fill, 2), Ok(()));
    check(rt, sender.publish(0, 1), Ok(()));
    check(rt, calls, 2);
}

// What another sender published is refused to it, and its closure is not called.
fn check_refused(rt: &impl Abort, sender: &mut Sender<u64>) {
    let mut is_called = false;
    let mut fill = |_event: &mut u64, _number: u64| is_called = true;
    let refused = sender.update_by(1, &mut fill, 0);
    check(rt, refused, Err(Refusal::AlreadyPublished));
    check(rt, is_called, false);
}

// The events as one number, a digit each.
fn check_events(rt: &impl Abort, receiver: &mut Receiver<u64>) {
    let two = Batch {
        first: 0,
        count: 2,
        end: true,
    };
    check(rt, receiver.poll(4), Ok(two));
    let mut digits = 0u64;
    for event in receiver.events() {
        digits = digits.wrapping_mul(10).wrapping_add(*event);
    }
    check(rt, digits, 14);
}

#[test]
fn one_closure_fills_events(rt: HostRuntime) {
    let alloc = rt.alloc();
    let events = vec![in alloc; 0u64; 4].expect(&rt, "memory");
    let mut ends = open(&rt, alloc, Shape::Chain, MAX_LIMIT, 2, events);
    assert!(&rt; ends.senders.len() == 2 && !ends.receivers.is_empty());
    fill_two(&rt, &mut ends.senders[0]);
    check_refused(&rt, &mut ends.senders[1]);
    check_events(&rt, &mut ends.receivers[0]);
}
