//! The rounds of the ring over plain memory: the sender and each handler on a thread of its own. Each event
//! is written once, and every handler reads it where it lies.

use crate::MOST_TURNS;
use crate::arguments::Order;
use crate::fault::Fault;
use crate::measured::Round;
use crate::threads::{MOST_AT_ONCE, Works, finish, send_for, start};
use crate::width::{Made, Width, Words};
use dr_meaning::{MAX_LIMIT, Polled};
use dr_plain::{Halter, Receiver, Sender, ring};
use dr_workers::Waiting;
use std::alloc::Global;
use std::rt::Clock;
use std::thread::Threads;

/// The sum of the first words of a batch, as it wraps.
fn sum_of<E: Made>(receiver: &Receiver<E>, first: u64, count: u64) -> u64 {
    let mut total = 0u64;
    for k in 0..count {
        if let Some(event) = receiver.event(first.wrapping_add(k)) {
            total = total.wrapping_add(event.first());
        }
    }
    total
}

impl<E: Made> Works for Receiver<E> {
    fn work(&mut self, _claim: u64, slots: u64) -> Result<u64, Fault> {
        let room = slots.min(MOST_AT_ONCE);
        let mut total = 0u64;
        let mut waiting = Waiting::new(room);
        for _ in 0..MOST_TURNS {
            match self.poll(room)? {
                Polled::Batch { first, count, .. } => {
                    total = total.wrapping_add(sum_of(self, first, count));
                    self.complete(first.wrapping_add(count))?;
                    waiting.found(count);
                }
                Polled::Drained => return Ok(total),
                Polled::Gating | Polled::Idle => waiting.wait(),
            }
        }
        Err(Fault::NO_END)
    }
}

/// A round from the first claim until the last handler has drained the ring.
fn measured<E: Made + Send + Sync + 'static>(
    rt: &(impl Clock + Threads),
    alloc: Global,
    order: &Order,
    sender: &mut Sender<E>,
    receivers: Vec<Receiver<E>>,
) -> Result<Round, Fault> {
    let handlers = start(rt, alloc, receivers, order)?;
    let (begun, events) = send_for::<E, Sender<E>>(rt, sender, order)?;
    sender.close()?;
    finish(rt, handlers, begun, events)
}

type Ends<E> = (Sender<E>, Vec<Receiver<E>>, Halter<E>);

fn ends<E: Made>(alloc: Global, order: &Order) -> Result<Ends<E>, Fault> {
    let graph = order.topology.shape.graph(alloc)?;
    let events = vec![in alloc; E::at(0); order.size.get() as usize]?;
    match ring(alloc, &graph, order.size, MAX_LIMIT, events) {
        Ok(ends) => Ok(ends),
        Err(_) => Err(Fault::MEMORY),
    }
}

/// One round over a ring of its own, of such events.
fn round_with<E: Made + Send + Sync + 'static>(
    rt: &(impl Clock + Threads),
    alloc: Global,
    order: &Order,
) -> Result<Round, Fault> {
    let (mut sender, receivers, _halter) = ends::<E>(alloc, order)?;
    measured(rt, alloc, order, &mut sender, receivers)
}

/// One round over a ring of its own, of events of a width.
pub fn round(
    rt: &(impl Clock + Threads),
    alloc: Global,
    order: &Order,
    width: Width,
) -> Result<Round, Fault> {
    match width {
        Width::One => round_with::<Words<0>>(rt, alloc, order),
        Width::Two => round_with::<Words<1>>(rt, alloc, order),
        Width::Eight => round_with::<Words<7>>(rt, alloc, order),
        Width::Sixteen => round_with::<Words<15>>(rt, alloc, order),
    }
}
