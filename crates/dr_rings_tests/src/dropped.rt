//! An end of a ring that is dropped does nothing more: a receiver completes nothing of what it has in hand, a sender closes nothing,
//! and a halter halts nothing. Over plain memory each event is dropped with the last end, once.

use crate::calls::Answer::{Says, Shows};
use crate::calls::Call::{Claim, Complete, Halt, Poll, Publish, Write};
use crate::calls::Row;
use crate::checks::check;
use crate::counted::{Counted, Counting, none_alive, some_events};
use crate::events::{ONE, TWO};
use crate::graphs::Shape;
use crate::playing::play;
use crate::{plain, plain_senders, words};
use dr_meaning::MAX_LIMIT;
use dr_meaning::Refusal::NoRoom;
use dr_meaning::Reply::{Claimed, Completed, Drained, Halting, Idle, Published, Refused, Written};
use dr_seq::Size;
use std::alloc::Global;
use std::mem::swap;
use std::process::Abort;
use std::sync::Arc;

/// Both cells of a ring are filled, each by another sender if there are two.
const FILL: &[Row] = &[
    (0, Claim(1), Says(Claimed { lo: 0, hi: 0 })),
    (0, Write(0, ONE), Says(Written)),
    (0, Publish(0, 0), Says(Published)),
    (1, Claim(1), Says(Claimed { lo: 1, hi: 1 })),
    (1, Write(1, TWO), Says(Written)),
    (1, Publish(1, 1), Says(Published)),
];

/// The receiver takes both events, and completes the first.
const TAKE_BOTH: &[Row] = &[
    (0, Poll(2), Shows(0, true, &[ONE, TWO])),
    (0, Complete(1), Says(Completed)),
];

const ONE_IS_FREE: &[Row] = &[
    (1, Claim(1), Says(Claimed { lo: 2, hi: 2 })),
    (0, Claim(1), Says(Refused(NoRoom))),
    (1, Claim(1), Says(Refused(NoRoom))),
];

const HALT: &[Row] = &[(0, Halt, Says(Halting))];

/// The receiver receives all, and is not told that the ring drained.
const RECEIVE_ALL: &[Row] = &[
    (0, Poll(2), Shows(0, true, &[ONE, TWO])),
    (0, Complete(2), Says(Completed)),
    (0, Poll(1), Says(Idle)),
];

const DRAINED: &[Row] = &[(0, Poll(1), Says(Drained))];

fn one_sender(rt: &impl Abort, alloc: Global, alive: &Arc<u64>) -> Counting<plain::Ends<Counted>> {
    let size = Size::new(2).expect(rt, "a size");
    let events = some_events(rt, alloc, alive, 2);
    assert!(rt; events.len() as u64 == size.get());
    let ends = plain::open(rt, alloc, Shape::Alone, size, MAX_LIMIT, events);
    Counting::new(rt, ends, alive)
}

fn two_senders(
    rt: &impl Abort,
    alloc: Global,
    alive: &Arc<u64>,
) -> Counting<plain_senders::Ends<Counted>> {
    let events = some_events(rt, alloc, alive, 2);
    let ends = plain_senders::open(rt, alloc, Shape::Alone, MAX_LIMIT, 2, events);
    Counting::new(rt, ends, alive)
}

/// All ends go, and with them each event.
fn drop_all<E: Drop>(rt: &impl Abort, ends: Counting<E>, alive: &Arc<u64>) {
    drop(ends);
    check(rt, Arc::strong_count(alive), 1);
}

#[test]
fn a_receiver_that_is_dropped_completes_nothing(rt: HostRuntime) {
    let alive = none_alive(&rt, rt.alloc());
    let mut ends = one_sender(&rt, rt.alloc(), &alive);
    play(&rt, &mut ends, FILL, "filled");
    play(&rt, &mut ends, TAKE_BOTH, "in hand");
    ends.ends.receivers.clear();
    play(&rt, &mut ends, ONE_IS_FREE, "dropped");
    drop_all(&rt, ends, &alive);
}

#[test]
fn a_sender_that_is_dropped_closes_nothing(rt: HostRuntime) {
    let alive = none_alive(&rt, rt.alloc());
    let mut ends = one_sender(&rt, rt.alloc(), &alive);
    play(&rt, &mut ends, FILL, "filled");
    // That of another ring comes in its place.
    let elsewhere = none_alive(&rt, rt.alloc());
    let mut other = one_sender(&rt, rt.alloc(), &elsewhere);
    swap(&mut ends.ends.sender, &mut other.ends.sender);
    drop(other);
    play(&rt, &mut ends, HALT, "halted");
    play(&rt, &mut ends, RECEIVE_ALL, "dropped");
    drop_all(&rt, ends, &alive);
    check(&rt, Arc::strong_count(&elsewhere), 1);
}

#[test]
fn a_receiver_beside_two_senders_that_is_dropped_completes_nothing(rt: HostRuntime) {
    let alive = none_alive(&rt, rt.alloc());
    let mut ends = two_senders(&rt, rt.alloc(), &alive);
    play(&rt, &mut ends, FILL, "filled");
    play(&rt, &mut ends, TAKE_BOTH, "in hand");
    ends.ends.receivers.clear();
    play(&rt, &mut ends, ONE_IS_FREE, "dropped");
    drop_all(&rt, ends, &alive);
}

#[test]
fn two_senders_that_are_dropped_close_nothing(rt: HostRuntime) {
    let alive = none_alive(&rt, rt.alloc());
    let mut ends = two_senders(&rt, rt.alloc(), &alive);
    play(&rt, &mut ends, FILL, "filled");
    ends.ends.senders.clear();
    play(&rt, &mut ends, RECEIVE_ALL, "dropped");
    play(&rt, &mut ends, HALT, "halted");
    play(&rt, &mut ends, DRAINED, "drained");
    drop_all(&rt, ends, &alive);
}

#[test]
fn a_receiver_of_words_that_is_dropped_completes_nothing(rt: HostRuntime) {
    let mut ends = words::open(&rt, rt.alloc(), Shape::Alone, 2, MAX_LIMIT);
    play(&rt, &mut ends, FILL, "filled");
    play(&rt, &mut ends, TAKE_BOTH, "in hand");
    ends.receivers.clear();
    play(&rt, &mut ends, ONE_IS_FREE, "dropped");
}

#[test]
fn a_sender_of_words_that_is_dropped_closes_nothing(rt: HostRuntime) {
    let mut ends = words::open(&rt, rt.alloc(), Shape::Alone, 2, MAX_LIMIT);
    play(&rt, &mut ends, FILL, "filled");
    let mut other = words::open(&rt, rt.alloc(), Shape::Alone, 2, MAX_LIMIT);
    swap(&mut ends.sender, &mut other.sender);
    drop(other);
    play(&rt, &mut ends, HALT, "halted");
    play(&rt, &mut ends, RECEIVE_ALL, "dropped");
}

#[test]
fn a_halter_of_words_that_is_dropped_halts_nothing(rt: HostRuntime) {
    let mut ends = words::open(&rt, rt.alloc(), Shape::Alone, 2, MAX_LIMIT);
    play(&rt, &mut ends, FILL, "filled");
    let mut other = words::open(&rt, rt.alloc(), Shape::Alone, 2, MAX_LIMIT);
    swap(&mut ends.halter, &mut other.halter);
    drop(other);
    play(&rt, &mut ends, TAKE_BOTH, "dropped");
    play(&rt, &mut ends, ONE_IS_FREE, "claimed");
}
