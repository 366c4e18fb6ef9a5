//! The ring over plain memory, with one sender.

ghost use Rattle.std.specs.Prelude.{◌≡◌, length};
ghost use Rattle.dr_plain.specs.Calls.Settling.{AreAllEnds};

mod calling;
mod endings;
mod leaving;
mod looks;
mod play;
mod texts;
mod threads;
mod turns;
mod workers;

use crate::graphs::{Shape, graph};
use dr_plain::{Halter, Receiver, Sender, ring};
use dr_seq::{Event, Size};
use std::alloc::Global;
use std::process::Abort;

#[derive(Drop)]
pub struct Ends<T> {
    pub sender: Sender<T>,
    pub receivers: Vec<Receiver<T>>,
    pub halter: Halter<T>,
}

/// A ring over some events, as many as its slots.
pub fn open<T: Drop>(
    rt: &impl Abort,
    alloc: Global,
    shape: Shape,
    size: Size,
    limit: u64,
    events: Vec<T>,
) -> Ends<T>
    requires { length events.items ≡ size }
    ensures { AreAllEnds result.sender result.receivers.items result.halter }
{
    let graph = graph(rt, alloc, shape);
    let made = ring(alloc, &graph, size, limit, events);
    let (sender, receivers, halter) = made.expect(rt, "a ring");
    Ends {
        sender,
        receivers,
        halter,
    }
}

/// A ring over events of two words.
pub fn open_words(
    rt: &impl Abort,
    alloc: Global,
    shape: Shape,
    size: u64,
    limit: u64,
) -> Ends<Event>
    ensures { AreAllEnds result.sender result.receivers.items result.halter }
{
    let size = Size::new(size).expect(rt, "a size");
    let events = vec![in alloc; Event::NONE; size.get() as usize].expect(rt, "memory");
    open(rt, alloc, shape, size, limit, events)
}
