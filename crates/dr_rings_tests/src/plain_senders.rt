//! The ring over plain memory, with several senders.

ghost use Rattle.dr_plain_senders.specs.Calls.Settling.{AreAllEnds};

mod calling;
mod endings;
mod filling;
mod leaving;
mod opening;
mod play;
mod rows;
mod texts;
mod threads;
mod turns;
mod workers;

use crate::graphs::{Shape, graph};
use dr_plain_senders::{Halter, Receiver, Sender, ring};
use dr_seq::Size;
use std::alloc::Global;
use std::process::Abort;

#[derive(Drop)]
pub struct Ends<T> {
    pub senders: Vec<Sender<T>>,
    pub receivers: Vec<Receiver<T>>,
    pub halter: Halter<T>,
}

/// A ring over some events, with as many slots.
pub fn open<T: Drop>(
    rt: &impl Abort,
    alloc: Global,
    shape: Shape,
    limit: u64,
    senders: usize,
    events: Vec<T>,
) -> Ends<T>
    ensures { AreAllEnds result.senders.items result.receivers.items result.halter }
{
    let size = Size::new(events.len() as u64).expect(rt, "a size");
    let graph = graph(rt, alloc, shape);
    let made = ring(alloc, &graph, size, limit, senders, events);
    let (senders, receivers, halter) = made.expect(rt, "a ring");
    Ends {
        senders,
        receivers,
        halter,
    }
}
