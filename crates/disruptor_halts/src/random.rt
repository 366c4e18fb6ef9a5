//! Numbers that a seed gives.

ghost use Rattle.std.specs.Prelude.{◌<◌};

use std::hint::spin_loop;
use std::thread::yield_now;

/// A generator of numbers: SplitMix64.
#[derive(Clone, Copy)]
pub struct Random {
    state: u64,
}

impl Random {
    pub fn new(seed: u64) -> Random {
        Random { state: seed }
    }

    /// The next number.
    pub fn next(&mut self) -> u64 {
        self.state = self.state.wrapping_add(0x9e37_79b9_7f4a_7c15);
        let mixed = (self.state ^ (self.state >> 30)).wrapping_mul(0xbf58_476d_1ce4_e5b9);
        let mixed = (mixed ^ (mixed >> 27)).wrapping_mul(0x94d0_49bb_1331_11eb);
        mixed ^ (mixed >> 31)
    }

    /// A number below another, or 0.
    pub fn below(&mut self, end: u64) -> u64
        ensures { 0 < end → result < end }
    {
        self.next().checked_rem(end).unwrap_or(0)
    }

    /// A generator for another thread.
    pub fn split(&mut self) -> Random {
        Random::new(self.next())
    }

    /// Waits for nothing, for some turns, or for another thread's turn.
    pub fn pause(&mut self) {
        match self.below(16) {
            0 => yield_now(),
            1 => {
                for _ in 0..self.below(1000) {
                    spin_loop();
                }
            }
            _ => {}
        }
    }
}
