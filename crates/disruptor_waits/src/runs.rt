//! A run in one call over a ring, by two handlers and a sender.

use crate::fault::Fault;
use crate::pair::graph;
use dr_disruptor::{Feed, InPlaceHandler, WaitStrategy, Way};
use dr_meaning::Refusal;
use dr_seq::Size;
use std::alloc::Global;
use std::sync::Wait;
use std::thread::Threads;

/// Sends numbers over a ring of so many slots, to two handlers of which the second follows the first.
pub fn run<
    R: Threads + Wait + Copy + Send + 'static,
    H: InPlaceHandler<u64> + Drop + Send + 'static,
    F: Feed<u64, Answer = Result<(), Refusal>> + Drop,
>(
    rt: R,
    alloc: Global,
    slots: u64,
    handlers: Vec<H>,
    strategy: WaitStrategy,
    feed: F,
) -> Result<(), Fault> {
    let Ok(size) = Size::new(slots) else {
        return Err(Fault::Memory);
    };
    let graph = graph(alloc, &["first", "second"], &[("first", "second")])?;
    let events = vec![in alloc; 0u64; size.get() as usize]?;
    let way = Way::by(strategy);
    let ran = dr_disruptor::run(rt, alloc, &graph, size, events, handlers, way, |sender| {
        feed.feed(sender)
    })?;
    Ok(ran.sent?)
}
