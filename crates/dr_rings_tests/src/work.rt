//! Handlers.

use dr_meaning::{Handler, InPlaceHandler};
use dr_seq::Event;

/// Adds up the first words of what it is shown, and counts it.
#[derive(Drop)]
pub struct Adder {
    pub total: u64,
    pub count: u64,
}

impl Handler<Event> for Adder {
    fn on_event(&mut self, event: Event, _s: u64, _end: bool) {
        self.total = self.total.wrapping_add(event.first);
        self.count = self.count.wrapping_add(1);
    }
}

/// The digits of what it is shown, and of the sequences that are marked.
#[derive(Drop)]
pub struct Digits {
    pub shown: u64,
    pub marked: u64,
}

impl InPlaceHandler<u64> for Digits {
    fn on_event_in_place(&mut self, event: &u64, s: u64, end: bool) {
        self.shown = self.shown.wrapping_mul(10).wrapping_add(*event);
        if end {
            self.marked = self.marked.wrapping_mul(10).wrapping_add(s);
        }
    }
}
