//! A receiver's thread leaves the ring, and no event is lost.

use super::{Ends, open};
use crate::counted::{Counted, none_alive, some_events};
use crate::graphs::Shape;
use crate::leaving::{SLOTS, check_ended, receive, send, wait_for_leaving};
use crate::threads::{Receive, start};
use dr_meaning::MAX_LIMIT;
use dr_plain::{Receiver, Sender};
use dr_seq::Size;
use std::alloc::Global;
use std::process::Abort;
use std::sync::{Arc, Wait};
use std::thread::{self, JoinHandle, Threads};

fn open_diamond(rt: &impl Abort, alloc: Global, alive: &Arc<u64>) -> Ends<Counted> {
    let size = Size::new(SLOTS).expect(rt, "a size");
    let events = some_events(rt, alloc, alive, SLOTS);
    assert!(rt; events.len() as u64 == size.get());
    open(rt, alloc, Shape::Diamond, size, MAX_LIMIT, events)
}

/// Sends, and closes.
fn send_and_close(rt: &impl Abort, mut sender: Sender<Counted>, alive: &Arc<u64>) -> u64 {
    let sent = send(rt, &mut sender, alive);
    let _ = sender.close();
    sent
}

fn start_sender<R: Threads + Abort + Copy + Send + 'static>(
    rt: R,
    sender: Sender<Counted>,
    alive: &Arc<u64>,
) -> JoinHandle<u64> {
    let share = Arc::try_clone(alive).expect(&rt, "memory");
    let started = thread::spawn(&rt, move || send_and_close(&rt, sender, &share));
    started.expect(&rt, "a thread")
}

impl Receive for Receiver<Counted> {
    fn receive<R: Wait>(mut self, _rt: &R, _alloc: Global, who: usize) -> Option<u64> {
        receive(&mut self, who)
    }
}

#[test]
fn a_thread_that_leaves_a_diamond_loses_no_event(rt: HostRuntime) {
    let alive = none_alive(&rt, rt.alloc());
    let ends = open_diamond(&rt, rt.alloc(), &alive);
    let mut started = start(rt, rt.alloc(), ends.receivers);
    let sending = start_sender(rt, ends.sender, &alive);
    let completed = wait_for_leaving(&rt, &mut started);
    let mut halter = ends.halter;
    halter.halt();
    drop(halter);
    check_ended(&rt, started, completed, sending.join(&rt), &alive);
}
