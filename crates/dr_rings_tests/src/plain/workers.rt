//! The workers of `dr_workers` over a ring of plain memory.

use super::open_words;
use crate::checks::check;
use crate::events::THREE;
use crate::graphs::Shape;
use crate::threads::{Receive, check_received, start};
use crate::threes::receive_threes;
use dr_meaning::MAX_LIMIT;
use dr_plain::{Receiver, Sender};
use dr_seq::Event;
use dr_workers::{OpenGate, Produced, produce};
use std::alloc::Global;
use std::sync::Wait;

impl Receive for Receiver<Event> {
    fn receive<R: Wait>(mut self, rt: &R, _alloc: Global, who: usize) -> Option<u64> {
        receive_threes(rt, &mut self, who)
    }
}

// The work of the sender, which closes the ring at its end.
fn send<R: Wait>(rt: &R, mut sender: Sender<Event>, script: &[Event]) -> Produced {
    let produced = produce(rt, &mut sender, &OpenGate, 16, script, 20);
    let _closed = sender.close();
    produced
}

#[test]
fn workers_over_a_diamond(rt: HostRuntime) {
    let script = vec![in rt.alloc(); THREE; 10_000].expect(&rt, "memory");
    let ends = open_words(&rt, rt.alloc(), Shape::Diamond, 64, MAX_LIMIT);
    let started = start(rt, rt.alloc(), ends.receivers);
    let all = Produced {
        sent: 10_000,
        fault: None,
    };
    check(&rt, send(&rt, ends.sender, script.as_slice()), all);
    check_received(&rt, started, 3, 10_000);
}
