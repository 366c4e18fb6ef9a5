//! One closure fills event after event, and turns show them to a handler, each where it lies.

use super::open;
use crate::checks::check;
use crate::graphs::Shape;
use crate::work::Digits;
use dr_meaning::Polled::{Batch, Drained, Idle};
use dr_meaning::{Claimed, MAX_LIMIT, Polled, Refusal};
use dr_plain::{Receiver, Sender};
use dr_seq::Size;
use std::process::Abort;

// Three events, each by its number and by how often the closure was called.
fn fill_three(rt: &impl Abort, sender: &mut Sender<u64>) {
    let mut calls = 0u64;
    let mut fill = |event: &mut u64, number: u64| {
        calls = calls.wrapping_add(1);
        *event = number.wrapping_add(calls);
    };
    check(rt, sender.try_claim(3), Ok(Claimed { lo: 0, hi: 2 }));
    check(rt, sender.update_by(0, &mut fill, 0), Ok(()));
    check(rt, sender.update_by(1, &mut fill, 2), Ok(()));
    let refused = sender.update_by(3, &mut fill, 9);
    check(rt, refused, Err(Refusal::NotClaimed));
    check(rt, sender.update_by(2, &mut fill, 4), Ok(()));
    check(rt, sender.publish(0, 2), Ok(()));
    check(rt, calls, 3);
}

// What a turn answers, and the digits after it.
fn check_turn(
    rt: &impl Abort,
    receiver: &mut Receiver<u64>,
    digits: &mut Digits,
    room: u64,
    wanted: (Result<Polled, Refusal>, u64, u64),
) {
    check(rt, receiver.turn(digits, room), wanted.0);
    check(rt, digits.shown, wanted.1);
    check(rt, digits.marked, wanted.2);
}

// Two events, then the third, which is the last that there is, and then none.
fn check_turns(rt: &impl Abort, receiver: &mut Receiver<u64>, digits: &mut Digits) {
    let two = Batch {
        first: 0,
        count: 2,
        end: false,
    };
    let one = Batch {
        first: 2,
        count: 1,
        end: true,
    };
    check_turn(rt, receiver, digits, 0, (Err(Refusal::BadCount), 0, 0));
    check_turn(rt, receiver, digits, 2, (Ok(two), 14, 0));
    check_turn(rt, receiver, digits, 2, (Ok(one), 147, 2));
    check(rt, receiver.completed(), 3);
    check_turn(rt, receiver, digits, 2, (Ok(Idle), 147, 2));
}

#[test]
fn turns_of_a_handler(rt: HostRuntime) {
    let alloc = rt.alloc();
    let size = Size::new(4).expect(&rt, "a size");
    let events = vec![in alloc; 0u64; size.get() as usize].expect(&rt, "memory");
    let mut ends = open(&rt, alloc, Shape::Diamond, size, MAX_LIMIT, events);
    fill_three(&rt, &mut ends.sender);
    let mut digits = Digits {
        shown: 0,
        marked: 0,
    };
    assert!(&rt; !ends.receivers.is_empty());
    check_turns(&rt, &mut ends.receivers[0], &mut digits);
    check(&rt, ends.sender.close(), Ok(()));
    let drained = ends.receivers[0].turn(&mut digits, 1);
    check(&rt, drained, Ok(Drained));
}
