//! How a worker waits, by a strategy that its caller picks.

ghost use Rattle.std.specs.Prelude.{◌≡◌, ℕ};
ghost use Rattle.dr_workers.specs.Calls.Waits.{WaitsForRoom};

use std::hint::spin_loop;

/// What a worker does between its looks. By any strategy it makes the same calls.
pub trait Patience {
    /// What a wait makes of it: anything, unless the type says more.
    ghost waits: { Self → Self → Type 0 } = { λ _ _. Unit {0} };

    /// What it makes of it that it begins anew: anything, unless the type says more.
    ghost finds: { Self → ℕ → Self → Type 0 } = { λ _ _ _. Unit {0} };

    /// Waits, after a look that found nothing.
    fn wait(&mut self)
        // What its type says of a wait holds.
        ensures waits { waits self.old self.new };

    /// Begins anew, after a wait that let so many events come, or room for so many.
    fn found(&mut self, count: u64)
        // What its type says of a wait that found so many holds.
        ensures finds { finds self.old count self.new };
}

/// Looks again at once, with a hint to the processor that it spins: LMAX's `BusySpinWaitStrategy`. It takes a
/// whole processor for each thread that waits.
#[derive(Clone, Copy, Debug, PartialEq, Eq)]
pub struct Spinning;

impl Patience for Spinning {
    ghost waits = { λ old new. new ≡ old };

    ghost finds = { λ old _ new. new ≡ old };

    fn wait(&mut self) {
        spin_loop();
    }

    fn found(&mut self, _count: u64) {}
}

// Waits for room, after it told how much there was since the last wait for it.
pub(crate) fn wait_for_room<P: Patience>(patience: &mut P, room: &mut u64)
    ensures waits { WaitsForRoom P.waits P.finds patience.old room.old patience.new }
    ensures none { room.new ≡ 0 }
{
    if *room > 0 {
        patience.found(*room);
        *room = 0;
    }
    patience.wait();
}
