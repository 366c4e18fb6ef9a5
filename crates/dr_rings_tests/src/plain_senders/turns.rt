//! Turns show a handler what two senders published, each event where it lies.

use super::open;
use crate::checks::check;
use crate::graphs::Shape;
use crate::work::Digits;
use dr_meaning::Polled::{Batch, Drained, Gating, Idle};
use dr_meaning::{Claimed, MAX_LIMIT, Polled, Refusal};
use dr_plain_senders::{Receiver, Sender};
use std::process::Abort;

// What a turn answers, and the digits after it.
fn check_turn(
    rt: &impl Abort,
    receiver: &mut Receiver<u64>,
    digits: &mut Digits,
    room: u64,
    wanted: (Result<Polled, Refusal>, u64, u64),
) {
    check(rt, receiver.turn(digits, room), wanted.0);
    check(rt, digits.shown, wanted.1);
    check(rt, digits.marked, wanted.2);
}

// Two events, then the third, which is the last that there is, and then none.
fn check_turns(rt: &impl Abort, receiver: &mut Receiver<u64>, digits: &mut Digits) {
    let two = Batch {
        first: 0,
        count: 2,
        end: false,
    };
    let one = Batch {
        first: 2,
        count: 1,
        end: true,
    };
    check_turn(rt, receiver, digits, 0, (Err(Refusal::BadCount), 0, 0));
    check_turn(rt, receiver, digits, 2, (Ok(two), 14, 0));
    check_turn(rt, receiver, digits, 2, (Ok(one), 147, 2));
    check(rt, receiver.completed(), 3);
    check_turn(rt, receiver, digits, 2, (Ok(Idle), 147, 2));
}

// The first two events, which stay unpublished.
fn write_two(rt: &impl Abort, sender: &mut Sender<u64>) {
    check(rt, sender.try_claim(2), Ok(Claimed { lo: 0, hi: 1 }));
    check(rt, sender.write(0, 1), Ok(()));
    check(rt, sender.write(1, 4), Ok(()));
}

// The third is published before them.
fn send_third(rt: &impl Abort, sender: &mut Sender<u64>) {
    check(rt, sender.try_claim(1), Ok(Claimed { lo: 2, hi: 2 }));
    check(rt, sender.write(2, 7), Ok(()));
    check(rt, sender.publish(2, 2), Ok(()));
}

#[test]
fn turns_of_a_handler(rt: HostRuntime) {
    let alloc = rt.alloc();
    let events = vec![in alloc; 0u64; 4].expect(&rt, "memory");
    let mut ends = open(&rt, alloc, Shape::Chain, MAX_LIMIT, 2, events);
    assert!(&rt; ends.senders.len() == 2 && !ends.receivers.is_empty());
    let mut digits = Digits {
        shown: 0,
        marked: 0,
    };
    write_two(&rt, &mut ends.senders[0]);
    send_third(&rt, &mut ends.senders[1]);
    let gating = ends.receivers[0].turn(&mut digits, 2);
    check(&rt, gating, Ok(Gating));
    check(&rt, ends.senders[0].publish(0, 1), Ok(()));
    check_turns(&rt, &mut ends.receivers[0], &mut digits);
    ends.halter.halt();
    let drained = ends.receivers[0].turn(&mut digits, 1);
    check(&rt, drained, Ok(Drained));
}
