//! Who may claim.

ghost use Rattle.std.specs.Prelude.{◌≡◌, not};
ghost use Rattle.dr_meaning.specs.Meaning.Machine.{is_single as is_single_of, producers as producers_of};
ghost use Rattle.dr_meaning.specs.Calls.OpenFault.{has_bad_producers};

/// The most producers of an exchange.
pub const MAX_PRODUCERS: u64 = 16;

/// How many producers claim, and in what order they publish.
#[derive(Clone, Copy, Debug, PartialEq, Eq)]
pub enum Mode {
    /// One producer, number 0, which publishes in order, as LMAX's single producer sequencer.
    Single,
    /// So many producers, numbered from 0, each of which publishes what it claimed as it likes, as
    /// LMAX's multi producer sequencer.
    Multi(u64),
}

impl Mode {
    /// Whether an exchange can have so many producers: several are 1 to [`MAX_PRODUCERS`].
    pub fn is_valid(self) -> bool
        ensures { result ≡ not (has_bad_producers self) }
    {
        0 < self.producers() && self.producers() <= MAX_PRODUCERS
    }

    /// How many producers there are.
    pub fn producers(self) -> u64
        ensures { result ≡ producers_of self }
    {
        match self {
            Mode::Single => 1,
            Mode::Multi(producers) => producers,
        }
    }

    /// Whether sequences are published in order.
    pub fn is_single(self) -> bool
        ensures { result ≡ is_single_of self }
    {
        match self {
            Mode::Single => true,
            Mode::Multi(_) => false,
        }
    }
}
