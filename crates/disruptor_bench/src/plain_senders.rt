//! The rounds of the ring over plain memory with several senders: each sender and each handler on a thread of its own.

use crate::MOST_TURNS;
use crate::arguments::Order;
use crate::fault::Fault;
use crate::measured::Round;
use crate::threads::{MOST_AT_ONCE, Pace, Works, finish, in_stretch, join, start, stretch};
use crate::width::{Made, Words};
use dr_meaning::{MAX_LIMIT, Polled};
use dr_plain_senders::{Halter, Receiver, Sender, ring};
use dr_workers::Waiting;
use std::alloc::Global;
use std::rt::Clock;
use std::thread::Threads;
use std::time::Instant;

type Two = Words<1>;

impl Works for Sender<Two> {
    fn work(&mut self, claim: u64, slots: u64) -> Result<u64, Fault> {
        stretch::<Two, Sender<Two>>(self, &mut Pace::new(claim, slots))
    }
}

/// The sum of the first words of a batch, as it wraps.
fn sum_of(receiver: &Receiver<Two>, first: u64, count: u64) -> u64 {
    let mut total = 0u64;
    for k in 0..count {
        if let Some(event) = receiver.event(first.wrapping_add(k)) {
            total = total.wrapping_add(event.first());
        }
    }
    total
}

impl Works for Receiver<Two> {
    fn work(&mut self, _claim: u64, slots: u64) -> Result<u64, Fault> {
        let room = slots.min(MOST_AT_ONCE);
        let mut total = 0u64;
        let mut waiting = Waiting::new(room);
        for _ in 0..MOST_TURNS {
            match self.poll(room)? {
                Polled::Batch { first, count, .. } => {
                    total = total.wrapping_add(sum_of(self, first, count));
                    self.complete(first.wrapping_add(count))?;
                    waiting.found(count);
                }
                Polled::Drained => return Ok(total),
                Polled::Gating | Polled::Idle => waiting.wait(),
            }
        }
        Err(Fault::NO_END)
    }
}

fn ends(
    alloc: Global,
    order: &Order,
    senders: u64,
) -> Result<(Vec<Sender<Two>>, Vec<Receiver<Two>>, Halter<Two>), Fault> {
    let graph = order.topology.shape.graph(alloc)?;
    let events = vec![in alloc; Two::at(0); order.size.get() as usize]?;
    match ring(
        alloc,
        &graph,
        order.size,
        MAX_LIMIT,
        senders as usize,
        events,
    ) {
        Ok(ends) => Ok(ends),
        Err(_) => Err(Fault::MEMORY),
    }
}

/// Sends a stretch from each sender, and answers how many events there were.
fn send_all(
    rt: &impl Threads,
    alloc: Global,
    order: &Order,
    senders: Vec<Sender<Two>>,
) -> Result<u64, Fault> {
    let each = in_stretch(order.claim());
    let events = each.wrapping_mul(senders.len() as u64);
    let workers = start(rt, alloc, senders, order)?;
    join(rt, workers, each)?;
    Ok(events)
}

/// A round from the first sender's start until the last handler has drained the ring.
fn measured(
    rt: &(impl Clock + Threads),
    alloc: Global,
    order: &Order,
    senders: Vec<Sender<Two>>,
    receivers: Vec<Receiver<Two>>,
    halter: &mut Halter<Two>,
) -> Result<Round, Fault> {
    let handlers = start(rt, alloc, receivers, order)?;
    let begun = Instant::now(rt)?;
    let events = send_all(rt, alloc, order, senders)?;
    halter.halt();
    finish(rt, handlers, begun, events)
}

/// One round of a stretch for each sender over a ring of its own.
pub fn round(
    rt: &(impl Clock + Threads),
    alloc: Global,
    order: &Order,
    senders: u64,
) -> Result<Round, Fault> {
    let (senders, receivers, mut halter) = ends(alloc, order, senders)?;
    measured(rt, alloc, order, senders, receivers, &mut halter)
}
