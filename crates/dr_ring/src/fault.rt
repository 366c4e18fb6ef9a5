//! Why a ring is not made.

ghost use Rattle.std.specs.Prelude.{◌≡◌, Some};
ghost use Rattle.dr_ring.specs.Calls.Fault.{number_of, name_of};
ghost use Rattle.dr_ring.specs.declared.fault.RingFault.TheVariants.{NoMemory};

use std::alloc::{AllocError, AllocFailed};
use std::fmt;
use thiserror::Error;

/// Why a ring is not made.
#[derive(Clone, Copy, Debug, PartialEq, Eq, Error)]
pub enum RingFault {
    /// The limit of sequences is 1 to [`MAX_LIMIT`](dr_meaning::MAX_LIMIT).
    BadLimit,
    /// An allocation failed.
    NoMemory,
}

impl RingFault {
    /// The fault's number, which stays the same in every release.
    pub fn number(self) -> u32
        ensures { result ≡ number_of self }
    {
        match self {
            RingFault::BadLimit => 33,
            RingFault::NoMemory => 40,
        }
    }

    /// The fault's name, as programs print it.
    pub fn name(self) -> &'static str
        ensures { result.now ≡ name_of self }
    {
        match self {
            RingFault::BadLimit => "bad-limit",
            RingFault::NoMemory => "no-memory",
        }
    }
}

impl fmt::Display for RingFault {
    ghost output = { λ fault. Some (name_of fault) };

    fn fmt<W: fmt::Write>(&self, f: &mut fmt::Formatter<W>) -> fmt::Result {
        f.write_str(self.name())
    }
}

impl From<AllocError> for RingFault {
    ghost from_gives = { λ _ fault. fault ≡ NoMemory };

    fn from(_: AllocError) -> RingFault {
        RingFault::NoMemory
    }
}

impl<T: Drop> From<AllocFailed<T>> for RingFault {
    ghost from_gives = { λ _ fault. fault ≡ NoMemory };

    fn from(_: AllocFailed<T>) -> RingFault {
        RingFault::NoMemory
    }
}
