//! How long events took.

use std::fmt;
use std::sync::atomic::{AtomicU64, Ordering};

/// What a thread may sleep at most, in microseconds, less what a clock may err by: an event that took longer may have
/// come to a thread that was not woken.
const NEARLY_A_SLEEP: u64 = 9_000;

/// How long events took, in microseconds.
#[derive(Clone, Copy)]
pub struct Times {
    events: u64,
    total: u64,
    most: u64,
    slept_through: u64,
}

impl Times {
    /// Whether an event took longer than this.
    pub fn are_above(self, micros: u64) -> bool {
        self.most > micros
    }
}

impl fmt::Display for Times {
    fn fmt<W: fmt::Write>(&self, f: &mut fmt::Formatter<W>) -> fmt::Result {
        let events = self.events;
        let mean = self.total / events.max(1);
        let (most, slept) = (self.most, self.slept_through);
        write!(
            f,
            "{events} events, {mean} microseconds each, {most} at most, {slept} of 9000 or more"
        )
    }
}

/// Times that one thread notes while events are sent.
#[derive(Drop)]
pub struct Notes {
    events: AtomicU64,
    total: AtomicU64,
    most: AtomicU64,
    slept_through: AtomicU64,
}

impl Notes {
    pub fn new() -> Notes {
        Notes {
            events: AtomicU64::new(0),
            total: AtomicU64::new(0),
            most: AtomicU64::new(0),
            slept_through: AtomicU64::new(0),
        }
    }

    /// Notes an event that took so long.
    pub fn note(&self, micros: u64) {
        self.events.fetch_add(1, Ordering::SeqCst);
        self.total.fetch_add(micros, Ordering::SeqCst);
        if micros > self.most.load(Ordering::SeqCst) {
            self.most.store(micros, Ordering::SeqCst);
        }
        if micros >= NEARLY_A_SLEEP {
            self.slept_through.fetch_add(1, Ordering::SeqCst);
        }
    }

    /// What was noted.
    pub fn times(&self) -> Times {
        Times {
            events: self.events.load(Ordering::SeqCst),
            total: self.total.load(Ordering::SeqCst),
            most: self.most.load(Ordering::SeqCst),
            slept_through: self.slept_through.load(Ordering::SeqCst),
        }
    }
}
