//! A measurement over each exchange.

use crate::fault::Fault;
use crate::latency::handling::{noted, start};
use crate::latency::sending::{Ends, send_all};
use crate::pair::graph;
use crate::words::{Exchange, Order};
use dr_graph::Graph;
use dr_meaning::{MAX_LIMIT, Outlet};
use dr_ring::ring;
use dr_seq::{Event, Size};
use dr_workers::{Bell, SENDER};
use std::alloc::Global;
use std::rt::Clock;
use std::sync::{Arc, Wait};
use std::thread::Threads;
use std::time::Instant;

/// The slots of the ring.
const SLOTS: u64 = 1024;

/// Three handlers.
const NAMES: [&str; 3] = ["first", "second", "third"];

/// Each follows the one before it.
const EDGES: [(&str, &str); 2] = [("first", "second"), ("second", "third")];

/// Sends through an exchange with these ends.
fn through<
    R: Threads + Clock + Wait + Copy + Send + 'static,
    I: Ends,
    O: Outlet<Event> + Drop + Send + 'static,
>(
    rt: R,
    alloc: Global,
    order: Order,
    begun: Instant,
    sender: I,
    receivers: Vec<O>,
) -> Result<Vec<u64>, Fault> {
    let bell = Arc::new(alloc, Bell::new())?;
    let started = start(rt, alloc, receivers, &bell, order, begun)?;
    match send_all(&rt, sender, &bell, order, begun) {
        None => noted(&rt, alloc, started),
        Some(fault) => Err(Fault::Worker { who: SENDER, fault }),
    }
}

fn through_ring<R: Threads + Clock + Wait + Copy + Send + 'static>(
    rt: R,
    alloc: Global,
    order: Order,
    begun: Instant,
    graph: &Graph,
    size: Size,
) -> Result<Vec<u64>, Fault> {
    let Ok((sender, receivers, _halter)) = ring(alloc, graph, size, MAX_LIMIT) else {
        return Err(Fault::Memory);
    };
    through(rt, alloc, order, begun, sender, receivers)
}

fn through_plain<R: Threads + Clock + Wait + Copy + Send + 'static>(
    rt: R,
    alloc: Global,
    order: Order,
    begun: Instant,
    graph: &Graph,
    size: Size,
) -> Result<Vec<u64>, Fault> {
    let events = vec![in alloc; Event::NONE; size.get() as usize]?;
    let Ok((sender, receivers, _halter)) = dr_plain::ring(alloc, graph, size, MAX_LIMIT, events)
    else {
        return Err(Fault::Memory);
    };
    through(rt, alloc, order, begun, sender, receivers)
}

fn through_plain_senders<R: Threads + Clock + Wait + Copy + Send + 'static>(
    rt: R,
    alloc: Global,
    order: Order,
    begun: Instant,
    graph: &Graph,
    size: Size,
) -> Result<Vec<u64>, Fault> {
    let events = vec![in alloc; Event::NONE; size.get() as usize]?;
    let Ok((mut senders, receivers, _halter)) = dr_plain_senders::ring(
        alloc, graph, size, MAX_LIMIT, 1, events,
    ) else {
        return Err(Fault::Memory);
    };
    match senders.pop() {
        Some(sender) => through(rt, alloc, order, begun, sender, receivers),
        None => Err(Fault::Memory),
    }
}

/// Sends the events of a measurement through three handlers, and tells how many nanoseconds each took.
pub fn pass<R: Threads + Clock + Wait + Copy + Send + 'static>(
    rt: R,
    alloc: Global,
    order: Order,
) -> Result<Vec<u64>, Fault> {
    let Ok(size) = Size::new(SLOTS) else {
        return Err(Fault::Memory);
    };
    let begun = Instant::now(&rt)?;
    let graph = graph(alloc, &NAMES, &EDGES)?;
    match order.exchange {
        Exchange::Ring => through_ring(rt, alloc, order, begun, &graph, size),
        Exchange::Plain => through_plain(rt, alloc, order, begun, &graph, size),
        Exchange::PlainSenders => through_plain_senders(rt, alloc, order, begun, &graph, size),
    }
}
