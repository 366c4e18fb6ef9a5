//! How long events take until the next one finds room.

use crate::clock::{micros_since, pause};
use crate::times::{Notes, Times};
use std::sync::atomic::{AtomicU64, Ordering};
use std::time::{Clock, Instant};

/// What times the events of a ring of one slot: where one has its slot, the one before is completed. It notes how many
/// microseconds that took, and pauses before the next one.
#[derive(Drop)]
pub struct Stopwatch<R> {
    clock: R,
    begun: Option<Instant>,
    published: AtomicU64,
    notes: Notes,
}

impl<R: Clock> Stopwatch<R> {
    pub fn new(clock: R) -> Stopwatch<R> {
        let begun = Instant::now(&clock).ok();
        Stopwatch {
            clock,
            begun,
            published: AtomicU64::new(0),
            notes: Notes::new(),
        }
    }

    fn micros(&self) -> Option<u64> {
        micros_since(&self.clock, self.begun)
    }

    /// The event of this turn has its slot, and is about to be published.
    pub fn pass(&self, turn: u64) {
        if turn > 0 {
            let now = self.micros().unwrap_or(u64::MAX);
            let published = self.published.load(Ordering::SeqCst);
            self.notes.note(now.saturating_sub(published));
        }
        pause(&self.clock, turn);
        self.published
            .store(self.micros().unwrap_or(0), Ordering::SeqCst);
    }

    /// How long the events took.
    pub fn times(&self) -> Times {
        self.notes.times()
    }
}
