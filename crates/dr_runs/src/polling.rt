//! What a poll makes of what it saw.

ghost use Rattle.std.specs.Prelude.{◌≡◌};
ghost use Rattle.dr_runs.specs.Looks.{lesser_of};
ghost use Rattle.dr_runs.specs.OneSender.Polls.{nothing_offered as answer_of};

use dr_meaning::Polled;

/// The lesser of a count and those seen before, or the count where it is the first.
#[inline]
pub fn lesser(first: bool, count: u64, seen: u64) -> u64
    ensures { result ≡ lesser_of first count seen }
{
    if first || count < seen { count } else { seen }
}

/// What a poll answers where its barrier offers nothing.
#[inline]
pub fn nothing_offered(closed: u64, cursor: u64, taken: u64) -> Polled
    ensures { result ≡ answer_of closed cursor taken }
{
    if closed == 1 && cursor == taken {
        Polled::Drained
    } else if cursor > taken {
        Polled::Gating
    } else {
        Polled::Idle
    }
}
