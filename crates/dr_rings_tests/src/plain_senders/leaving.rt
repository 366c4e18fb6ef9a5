//! A receiver's thread leaves the ring, and no event is lost.

use super::{Ends, open};
use crate::checks::check;
use crate::counted::{Counted, none_alive, some_events};
use crate::graphs::Shape;
use crate::leaving::{SLOTS, check_ended, receive, send, wait_for_leaving};
use crate::threads::{Receive, start};
use dr_meaning::MAX_LIMIT;
use dr_plain_senders::{Receiver, Sender};
use std::alloc::Global;
use std::process::Abort;
use std::sync::{Arc, Wait};
use std::thread::{self, JoinHandle, Threads};

fn open_diamond(rt: &impl Abort, alloc: Global, alive: &Arc<u64>) -> Ends<Counted> {
    let events = some_events(rt, alloc, alive, SLOTS);
    open(rt, alloc, Shape::Diamond, MAX_LIMIT, 2, events)
}

fn send_all(rt: &impl Abort, mut sender: Sender<Counted>, alive: &Arc<u64>) -> u64 {
    send(rt, &mut sender, alive)
}

/// The threads of all senders.
fn start_senders<R: Threads + Abort + Copy + Send + 'static>(
    rt: R,
    alloc: Global,
    senders: Vec<Sender<Counted>>,
    alive: &Arc<u64>,
) -> Vec<JoinHandle<u64>> {
    let mut started = Vec::new(alloc);
    for sender in senders {
        let share = Arc::try_clone(alive).expect(&rt, "memory");
        let worker = thread::spawn(&rt, move || send_all(&rt, sender, &share));
        let pushed = started.push(worker.expect(&rt, "a thread"));
        pushed.expect(&rt, "memory");
    }
    started
}

/// How many events both senders sent.
fn sum_sent(rt: &(impl Threads + Abort), started: Vec<JoinHandle<u64>>) -> u64 {
    check(rt, started.len(), 2);
    let mut sent = 0u64;
    for worker in started {
        sent = sent.wrapping_add(worker.join(rt));
    }
    sent
}

impl Receive for Receiver<Counted> {
    fn receive<R: Wait>(mut self, _rt: &R, _alloc: Global, who: usize) -> Option<u64> {
        receive(&mut self, who)
    }
}

#[test]
fn a_thread_that_leaves_a_diamond_loses_no_event_of_two_threads(rt: HostRuntime) {
    let alive = none_alive(&rt, rt.alloc());
    let ends = open_diamond(&rt, rt.alloc(), &alive);
    let mut started = start(rt, rt.alloc(), ends.receivers);
    let sending = start_senders(rt, rt.alloc(), ends.senders, &alive);
    let completed = wait_for_leaving(&rt, &mut started);
    let mut halter = ends.halter;
    halter.halt();
    drop(halter);
    check_ended(&rt, started, completed, sum_sent(&rt, sending), &alive);
}
