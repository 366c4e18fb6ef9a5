//! What a poll reads in the claim word, and what it answers where nothing is offered.

ghost use Rattle.std.specs.Prelude.{◌≡◌, ◌^◌, ◌<◌};
ghost use Rattle.dr_plain_senders.specs.Meaning.Words.{claimed_in as claimed_in_word};
ghost use Rattle.dr_plain_senders.specs.Inside.Polling.{nothing_offered as answer_of};

use crate::plan::HALT_BIT;
use dr_meaning::Polled;

/// How many sequences are claimed, by the claim word.
pub(crate) fn claimed_in(found: u64) -> u64
    ensures is { result ≡ claimed_in_word found }
    ensures small { result < 2 ^ 63 }
{
    if found < HALT_BIT {
        found
    } else {
        found - HALT_BIT
    }
}

/// What a poll answers where its barrier offers nothing.
pub(crate) fn nothing_offered(halted: bool, claimed: u64, taken: u64) -> Polled
    ensures { result ≡ answer_of halted claimed taken }
{
    if claimed > taken {
        Polled::Gating
    } else if halted {
        Polled::Drained
    } else {
        Polled::Idle
    }
}
