//! Threads hand all texts over, each in order, and end by themselves.

use super::texts::open_texts;
use crate::checks::check;
use crate::graphs::SHAPES;
use crate::text_threads::{receive, send};
use crate::threads::{Receive, check_received, start};
use dr_plain_senders::{Receiver, Sender};
use std::alloc::Global;
use std::process::Abort;
use std::sync::Wait;
use std::thread::{self, JoinHandle, Threads};

fn send_all(mut sender: Sender<String>, alloc: Global, count: u64) -> u64 {
    send(&mut sender, alloc, count, 16)
}

/// The threads of all senders, each of which sends so many texts.
fn start_senders<R: Threads + Abort + Copy>(
    rt: R,
    alloc: Global,
    senders: Vec<Sender<String>>,
    count: u64,
) -> Vec<JoinHandle<u64>> {
    let mut started = Vec::new(alloc);
    for sender in senders {
        let worker = thread::spawn(&rt, move || send_all(sender, alloc, count));
        let pushed = started.push(worker.expect(&rt, "a thread"));
        pushed.expect(&rt, "memory");
    }
    started
}

/// Each sender sent so many texts.
fn check_sent(rt: &(impl Threads + Abort), started: Vec<JoinHandle<u64>>, count: u64) {
    check(rt, started.len(), 2);
    for worker in started {
        check(rt, worker.join(rt), count);
    }
}

impl Receive for Receiver<String> {
    fn receive<R: Wait>(mut self, _rt: &R, alloc: Global, _who: usize) -> Option<u64> {
        receive(&mut self, alloc)
    }
}

#[test]
fn texts_of_two_threads_through_threads_of_each_shape(rt: HostRuntime) {
    for shape in SHAPES {
        let mut ends = open_texts(&rt, rt.alloc(), shape, 64);
        let started = start(rt, rt.alloc(), ends.receivers);
        let sending = start_senders(rt, rt.alloc(), ends.senders, 12_500);
        check_sent(&rt, sending, 12_500);
        ends.halter.halt();
        check_received(&rt, started, shape.handlers(), 25_000);
    }
}
