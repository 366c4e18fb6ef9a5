//! The receivers of a ring, each on a thread of its own, while its sender sends.

use crate::checks::check;
use std::alloc::Global;
use std::process::Abort;
use std::sync::Wait;
use std::thread::{self, JoinHandle, Threads};

/// What a receiver does on its thread.
pub trait Receive {
    /// Receives until it is told that the ring drained, and tells how many events came, or nothing where
    /// one came out of order.
    fn receive<R: Wait>(self, rt: &R, alloc: Global, who: usize) -> Option<u64>;
}

/// The threads of all receivers.
pub type Started = Vec<JoinHandle<Option<u64>>>;

pub fn start<R: Threads + Wait + Abort + Copy + Send + 'static, T: Receive + Drop + Send + 'static>(
    rt: R,
    alloc: Global,
    receivers: Vec<T>,
) -> Started {
    let mut started = Vec::new(alloc);
    for (who, receiver) in receivers.into_iter().enumerate() {
        let worker = thread::spawn(&rt, move || receiver.receive(&rt, alloc, who));
        let pushed = started.push(worker.expect(&rt, "a thread"));
        pushed.expect(&rt, "memory");
    }
    started
}

/// So many receivers received so many events each.
pub fn check_received(rt: &(impl Threads + Abort), started: Started, many: usize, events: u64) {
    check(rt, started.len(), many);
    for worker in started {
        check(rt, worker.join(rt), Some(events));
    }
}
