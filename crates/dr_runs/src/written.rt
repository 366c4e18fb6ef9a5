//! Which of a sender's open sequences are written.

ghost use Rattle.std.specs.Prelude.{◌≡◌, ◌^◌, ◌<◌, replicate, IfOk};
ghost use Rattle.std.specs.Bool.{MatchBool};
ghost use Rattle.dr_runs.specs.OneSender.Noted.{Notes, AreNoted, HasUnnoted};

use dr_seq::{Rounds, Size};
use std::alloc::{AllocError, Global};

/// Which of the open sequences are written: those that are claimed and not published. Those
/// written in order take a count alone.
#[derive(Drop)]
pub struct Written {
    /// Each open sequence below it is written.
    pub upto: u64,
    // Those that were written past it.
    ahead: Rounds,
}

impl Written {
    /// For a ring in which nothing is claimed.
    pub fn new(alloc: Global, size: Size) -> Result<Written, AllocError>
        ensures { IfOk result (λ written. written ≡ record { upto = 0; ahead = replicate size 0 }) }
    {
        let ahead = Rounds::new(alloc, size)?;
        Ok(Written { upto: 0, ahead })
    }

    /// Notes that a sequence is written.
    #[inline]
    pub fn note(&mut self, sequence: u64)
        requires { sequence < 2 ^ 62 }
        ensures { Notes self.old sequence self.new }
    {
        if sequence == self.upto {
            self.upto += 1;
        } else if sequence > self.upto {
            self.ahead.mark(sequence);
        }
    }

    /// Whether each sequence from `lo` to `hi` is written.
    #[inline]
    pub fn has_all(&self, lo: u64, hi: u64) -> bool
        requires { hi < 2 ^ 62 }
        ensures { MatchBool result (AreNoted self.now lo hi) (HasUnnoted self.now lo hi) }
    {
        for sequence in lo.max(self.upto)..hi + 1 {
            if !self.ahead.is_marked(sequence) {
                return false;
            }
        }
        true
    }
}
