//! Threads hand all events over, each in order, and end by themselves.

use super::texts::open_texts;
use crate::checks::check;
use crate::graphs::SHAPES;
use crate::text_threads::{receive, send};
use crate::threads::{Receive, check_received, start};
use dr_plain::{Receiver, Sender};
use std::alloc::Global;
use std::sync::Wait;

/// Sends, and closes.
fn send_and_close(mut sender: Sender<String>, alloc: Global) -> u64 {
    let sent = send(&mut sender, alloc, 25_000, 16);
    let _ = sender.close();
    sent
}

impl Receive for Receiver<String> {
    fn receive<R: Wait>(mut self, _rt: &R, alloc: Global, _who: usize) -> Option<u64> {
        receive(&mut self, alloc)
    }
}

#[test]
fn texts_through_threads_of_each_shape(rt: HostRuntime) {
    for shape in SHAPES {
        let ends = open_texts(&rt, rt.alloc(), shape, 64);
        let started = start(rt, rt.alloc(), ends.receivers);
        check(&rt, send_and_close(ends.sender, rt.alloc()), 25_000);
        check_received(&rt, started, shape.handlers(), 25_000);
    }
}
