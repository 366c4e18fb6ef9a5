//! Which rings are refused, and that their events are dropped.

use super::rows::LIMIT;
use crate::checks::check;
use crate::counted::{none_alive, some_events};
use crate::graphs::{Shape, graph};
use dr_meaning::OpenFault;
use dr_plain_senders::ring;
use dr_seq::Size;
use std::alloc::Global;
use std::process::Abort;
use std::sync::Arc;

// A ring of four slots is refused so, and of its events none is left.
fn check_refused(rt: &impl Abort, alloc: Global, limit: u64, senders: usize, fault: OpenFault) {
    let alive = none_alive(rt, alloc);
    let size = Size::new(4).expect(rt, "a size");
    let graph = graph(rt, alloc, Shape::Chain);
    let events = some_events(rt, alloc, &alive, 4);
    assert!(rt; events.len() as u64 == size.get());
    let made = ring(alloc, &graph, size, limit, senders, events);
    check(rt, made.err(), Some(fault));
    check(rt, Arc::strong_count(&alive) as u64, 1);
}

#[test]
fn a_ring_has_one_to_sixteen_senders(rt: HostRuntime) {
    check_refused(&rt, rt.alloc(), LIMIT, 0, OpenFault::BadProducers);
    check_refused(&rt, rt.alloc(), LIMIT, 17, OpenFault::BadProducers);
    check_refused(&rt, rt.alloc(), 0, 16, OpenFault::BadLimit);
}
