//! How a run goes.

ghost use Rattle.std.specs.Prelude.{◌≡◌, ◌^◌, ◌-◌};

use dr_workers::WaitStrategy;

/// How the threads of a run wait for one another, and how many events a handler is shown at most before they are
/// completed, which is LMAX's batch size.
#[derive(Clone, Copy, Debug, PartialEq, Eq)]
pub struct Way {
    pub strategy: WaitStrategy,
    pub batch: u64,
}

impl Way {
    /// A way in which a handler is shown all that is there before it is completed. So each batch ends with an event
    /// that is marked.
    pub fn by(strategy: WaitStrategy) -> Way
        ensures { result ≡ record { strategy = strategy; batch = 2 ^ 64 - 1 } }
    {
        Way {
            strategy,
            batch: u64::MAX,
        }
    }

    /// The same with at most so many events in a batch, of which only that which ends what is there is marked.
    pub fn in_batches(self, most: u64) -> Way
        ensures { result ≡ record { strategy = self.strategy; batch = most } }
    {
        Way {
            strategy: self.strategy,
            batch: most,
        }
    }
}
