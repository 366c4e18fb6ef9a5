//! The workers of `dr_workers` over the ring's ends, several of them producers.

use super::open;
use crate::checks::check;
use crate::events::THREE;
use crate::graphs::Shape;
use crate::threads::{Receive, check_received, start};
use crate::threes::receive_threes;
use dr_meaning::MAX_LIMIT;
use dr_plain_senders::{Receiver, Sender};
use dr_seq::Event;
use dr_workers::{OpenGate, Produced, produce};
use std::alloc::Global;
use std::process::Abort;
use std::sync::Wait;
use std::thread::{self, JoinHandle, Threads};

impl Receive for Receiver<Event> {
    fn receive<R: Wait>(mut self, rt: &R, _alloc: Global, who: usize) -> Option<u64> {
        receive_threes(rt, &mut self, who)
    }
}

// A sender sends a script.
fn send<R: Wait>(rt: &R, mut sender: Sender<Event>, who: usize, script: Vec<Event>) -> Produced {
    produce(rt, &mut sender, &OpenGate, who, script.as_slice(), 20)
}

/// The threads of all senders, each of which sends so many threes.
fn start_senders<R: Threads + Wait + Abort + Copy + Send + 'static>(
    rt: R,
    alloc: Global,
    senders: Vec<Sender<Event>>,
    count: usize,
) -> Vec<JoinHandle<Produced>> {
    let mut started = Vec::new(alloc);
    for (who, sender) in senders.into_iter().enumerate() {
        let script = vec![in alloc; THREE; count].expect(&rt, "memory");
        let worker = thread::spawn(&rt, move || send(&rt, sender, who, script));
        let pushed = started.push(worker.expect(&rt, "a thread"));
        pushed.expect(&rt, "memory");
    }
    started
}

/// Each sender sent so many events.
fn check_sent(rt: &(impl Threads + Abort), started: Vec<JoinHandle<Produced>>, sent: u64) {
    check(rt, started.len(), 2);
    for worker in started {
        check(rt, worker.join(rt), Produced { sent, fault: None });
    }
}

#[test]
fn two_workers_over_a_diamond(rt: HostRuntime) {
    let events = vec![in rt.alloc(); Event::NONE; 64].expect(&rt, "memory");
    let mut ends = open(&rt, rt.alloc(), Shape::Diamond, MAX_LIMIT, 2, events);
    let started = start(rt, rt.alloc(), ends.receivers);
    let sending = start_senders(rt, rt.alloc(), ends.senders, 5_000);
    check_sent(&rt, sending, 5_000);
    ends.halter.halt();
    check_received(&rt, started, 3, 10_000);
}
