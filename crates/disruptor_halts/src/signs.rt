//! What the threads of a round tell each other.

use std::sync::atomic::{AtomicBool, AtomicU64, Ordering};

/// How many producers still send, and signs that are set once, and stay.
#[derive(Drop)]
pub struct Signs {
    sending: AtomicU64,
    left: AtomicBool,
    failed: AtomicBool,
}

impl Signs {
    /// The signs of a round with so many producers.
    pub fn new(producers: usize) -> Signs {
        Signs {
            sending: AtomicU64::new(producers as u64),
            left: AtomicBool::new(false),
            failed: AtomicBool::new(false),
        }
    }

    /// A producer sends no more.
    pub fn end_sending(&self) {
        self.sending.fetch_sub(1, Ordering::SeqCst);
    }

    /// A handler takes no more, so that those after it may wait for ever.
    pub fn leave(&self) {
        self.left.store(true, Ordering::SeqCst);
    }

    /// A thread did not do its work, or is not there, so that any other may wait for ever.
    pub fn fail(&self) {
        self.failed.store(true, Ordering::SeqCst);
    }

    /// Whether a thread did not do its work, or is not there.
    pub fn have_failed(&self) -> bool {
        self.failed.load(Ordering::SeqCst)
    }

    /// Whether a handler that finds nothing may have waited long enough.
    pub fn are_over(&self) -> bool {
        let closed = self.sending.load(Ordering::SeqCst) == 0;
        let left = self.left.load(Ordering::SeqCst);
        closed && left || self.have_failed()
    }
}
