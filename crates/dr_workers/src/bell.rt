//! What wakes those who sleep until something changes.

use std::alloc::Global;
use std::sync::atomic::{AtomicU64, Ordering};
use std::sync::{Arc, Wait};
use std::time::Duration;

/// The most milliseconds of one sleep: so late comes what nobody rang for.
const MOST_MILLIS: u64 = 10;

/// The words of two cache lines, but for one.
const LINE: usize = 15;

/// What wakes those who sleep: LMAX's condition of its blocking strategies. Who is about to sleep listens first,
/// and then looks once more. Who changed what others look at rings afterwards, which is one load where nobody
/// listens. So either that look sees the change, or the ring comes after the listening, and wakes.
#[derive(Drop)]
pub struct Bell {
    // So that what others store beside it takes no cache line from those who look whether somebody listens.
    _before: [u64; LINE],
    // Odd while somebody listens. A ring makes it even, and each change is a number more.
    word: AtomicU64,
    _after: [u64; LINE],
}

/// What can be rung: a bell behind a reference or an `Arc`.
pub trait Rings: Drop {
    /// Wakes those who sleep, if there are any.
    fn ring(&self);
}

impl Bell {
    /// Nobody listens.
    pub fn new() -> Bell {
        Bell {
            _before: [0; LINE],
            word: AtomicU64::new(0),
            _after: [0; LINE],
        }
    }

    /// Wakes those who sleep, if there are any.
    pub fn ring(&self) {
        let seen = self.word.load(Ordering::SeqCst);
        if seen % 2 == 0 {
            return;
        }
        let even = seen.wrapping_add(1);
        let rung = self
            .word
            .compare_exchange(seen, even, Ordering::SeqCst, Ordering::SeqCst);
        // Where another one rang meanwhile, that one wakes them.
        if rung.is_ok() {
            self.word.wake_all();
        }
    }

    /// Listens from here on, until the next ring: what the word then is, odd unless others changed it meanwhile.
    pub(crate) fn listen(&self) -> u64 {
        let seen = self.word.load(Ordering::SeqCst);
        if seen % 2 == 1 {
            return seen;
        }
        let odd = seen.wrapping_add(1);
        match self
            .word
            .compare_exchange(seen, odd, Ordering::SeqCst, Ordering::SeqCst)
        {
            Ok(_) => odd,
            Err(now) => now,
        }
    }

    /// Sleeps until a ring after the listening that answered `heard`, ten milliseconds at most.
    pub(crate) fn sleep<R: Wait>(&self, rt: &R, heard: u64) {
        // An even word is one that nobody rings.
        if heard % 2 == 0 {
            return;
        }
        let low = (heard % 4_294_967_296) as u32;
        self.word
            .park_timeout(rt, low, Duration::from_millis(MOST_MILLIS));
    }
}

impl Rings for &Bell {
    fn ring(&self) {
        Bell::ring(self)
    }
}

impl Rings for Arc<Bell, Global> {
    fn ring(&self) {
        Bell::ring(self)
    }
}
