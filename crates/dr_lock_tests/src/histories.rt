//! Histories of small exchanges.

ghost use Rattle.std.specs.Prelude.{◌≡◌};
ghost use Rattle.dr_lock.specs.Meaning.History.{asked};

use crate::graphs::{Shape, graph};
use dr_lock::Recorded;
use dr_meaning::Command::Poll;
use dr_meaning::{Command, MAX_LIMIT, Mode};
use dr_seq::{Event, Size};
use std::alloc::Global;
use std::process::Abort;

pub fn word(first: u64) -> Event {
    Event { first, second: 0 }
}

/// A history that begins with room for 4 entries and 2 values.
pub fn opened(
    rt: &impl Abort,
    alloc: Global,
    shape: Shape,
    size: u64,
    mode: Mode,
    limit: u64,
) -> Recorded<Event> {
    let size = Size::new(size).expect(rt, "a size");
    let graph = graph(rt, alloc, shape);
    let opened = Recorded::open(alloc, graph, size, mode, limit, Event::NONE, 4, 2);
    opened.expect(rt, "a history")
}

/// The history of a ring of four slots with two producers.
pub fn between_two(rt: &impl Abort, alloc: Global, shape: Shape) -> Recorded<Event> {
    opened(rt, alloc, shape, 4, Mode::Multi(2), MAX_LIMIT)
}

/// The room that a command asks for.
pub fn room(command: Command<Event>) -> usize
    ensures { result ≡ asked command }
{
    match command {
        Poll { h: _, max } => max,
        _ => 0,
    }
}
