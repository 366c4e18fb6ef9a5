//! A handler that lists what it is shown.

ghost use Rattle.std.specs.Prelude.{◌≡◌, ◌↔◌, IfOk, IsTrue, vec_capacity};
ghost use Rattle.dr_disruptor_lock.specs.Watching.{HasListed, IsNew};

use dr_meaning::InPlaceHandler;
use dr_seq::{Event, are_same};
use std::alloc::{AllocError, Global};

/// A handler with a list of what it was shown, which a history is compared with.
#[derive(Drop)]
pub struct Watching<H> {
    pub handler: H,
    /// The events, in their order.
    pub list: Vec<Event>,
    /// Whether all of them are in the list, and came with the sequences from 0 on.
    pub is_whole: bool,
    /// Whether the last one was the end of what was available.
    pub is_ended: bool,
}

impl<H: Drop> Watching<H> {
    /// One that was shown nothing yet, with room for so many events.
    pub fn new(alloc: Global, handler: H, room: usize) -> Result<Watching<H>, AllocError>
        // It has this handler, and was shown nothing yet.
        ensures new { IfOk result (λ watching. IsNew handler watching) }
        // It lists so many events without asking for memory.
        ensures room { IfOk result (λ watching. vec_capacity watching.list ≡ room) }
    {
        let list = Vec::with_capacity(alloc, room)?;
        Ok(Watching {
            handler,
            list,
            is_whole: true,
            is_ended: true,
        })
    }

    /// Whether it was shown just these events, in sequence order from 0 on, and none was left at the end.
    pub fn has_listed(&self, events: &[Event]) -> bool
        ensures { IsTrue result ↔ HasListed events.now self.now }
    {
        self.is_whole && self.is_ended && are_same(self.list.as_slice(), events)
    }
}

impl<H: InPlaceHandler<Event>> InPlaceHandler<Event> for Watching<H> {
    ghost use Rattle.dr_disruptor_lock.specs.Watching.{Watches};

    ghost goes = { Watches H.goes };

    fn on_event_in_place(&mut self, event: &Event, s: u64, end: bool) {
        if s != self.list.len() as u64 || self.list.push(*event).is_err() {
            self.is_whole = false;
        }
        self.is_ended = end;
        self.handler.on_event_in_place(event, s, end);
    }
}
