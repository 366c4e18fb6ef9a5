//! Handlers of several kinds.

use dr_disruptor::InPlaceHandler;
use dr_meaning::Handler;
use std::alloc::Global;
use std::sync::Arc;
use std::sync::atomic::{AtomicU64, Ordering};
use std::thread;

/// Adds up the numbers that it is shown, and writes down the sequences that are marked, as digits.
#[derive(Clone, Copy, Debug, Default, PartialEq, Eq)]
pub struct Tally {
    pub sum: u64,
    pub marked: u64,
}

impl InPlaceHandler<u64> for Tally {
    fn on_event_in_place(&mut self, event: &u64, s: u64, end: bool) {
        self.sum = self.sum.wrapping_add(*event);
        if end {
            self.marked = self.marked.wrapping_mul(10).wrapping_add(s);
        }
    }
}

/// How many events came.
#[derive(Clone, Copy, Debug, Default, PartialEq, Eq)]
pub struct Count(pub u64);

impl InPlaceHandler<u64> for Count {
    fn on_event_in_place(&mut self, _event: &u64, _s: u64, _end: bool) {
        self.0 = self.0.wrapping_add(1);
    }
}

/// Whether numbers from 0 on and from 100 on each came in their order.
#[derive(Clone, Copy, Debug, PartialEq, Eq)]
pub struct InOrder {
    pub low: u64,
    pub high: u64,
    pub is_broken: bool,
}

impl Default for InOrder {
    fn default() -> InOrder {
        InOrder {
            low: 0,
            high: 100,
            is_broken: false,
        }
    }
}

impl InPlaceHandler<u64> for InOrder {
    fn on_event_in_place(&mut self, event: &u64, _s: u64, _end: bool) {
        if *event == self.low {
            self.low = self.low.wrapping_add(1);
        } else if *event == self.high {
            self.high = self.high.wrapping_add(1);
        } else {
            self.is_broken = true;
        }
    }
}

/// The greatest number that came, each given by value.
#[derive(Clone, Copy, Debug, Default, PartialEq, Eq)]
pub struct Greatest(pub u64);

impl Handler<u64> for Greatest {
    fn on_event(&mut self, event: u64, _s: u64, _end: bool) {
        self.0 = self.0.max(event);
    }
}

/// Counts its calls where others count theirs too, and where the count stays when its handlers are gone.
#[derive(Drop)]
pub struct Calls(pub Arc<AtomicU64, Global>);

impl InPlaceHandler<u64> for Calls {
    fn on_event_in_place(&mut self, _event: &u64, _s: u64, _end: bool) {
        self.0.fetch_add(1, Ordering::SeqCst);
    }
}

/// Counts the ones and the twos. While only one of them has come, it counts those too, and gives way to the other.
#[derive(Clone, Copy, Debug, Default, PartialEq, Eq)]
pub struct Mixing {
    pub ones: u64,
    pub twos: u64,
    pub alone: u64,
}

impl InPlaceHandler<u64> for Mixing {
    fn on_event_in_place(&mut self, event: &u64, _s: u64, _end: bool) {
        if *event == 1 {
            self.ones = self.ones.wrapping_add(1);
        } else {
            self.twos = self.twos.wrapping_add(1);
        }
        if self.ones == 0 || self.twos == 0 {
            self.alone = self.alone.wrapping_add(1);
            give_way();
        }
    }
}

/// Lets other threads go on for about a millisecond.
fn give_way() {
    for _ in 0..1000 {
        thread::yield_now();
    }
}
