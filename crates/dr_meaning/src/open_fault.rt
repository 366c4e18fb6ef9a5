//! Why an exchange is not opened.

ghost use Rattle.std.specs.Prelude.{◌≡◌, Some};
ghost use Rattle.dr_meaning.specs.Calls.OpenFault.{number_of, name_of};
ghost use Rattle.dr_meaning.specs.declared.open_fault.OpenFault.TheVariants.{NoMemory};

use std::alloc::{AllocError, AllocFailed};
use std::fmt;
use thiserror::Error;

/// Why a core is not opened. Its graph is spent all the same.
#[derive(Clone, Copy, Debug, PartialEq, Eq, Error)]
pub enum OpenFault {
    /// There are no producers, or more than [`MAX_PRODUCERS`](crate::MAX_PRODUCERS).
    BadProducers,
    /// The limit of sequences is 0, or above [`MAX_LIMIT`](crate::MAX_LIMIT).
    BadLimit,
    /// An allocation failed.
    NoMemory,
}

impl OpenFault {
    /// The fault's number, which stays the same in every release.
    pub fn number(self) -> u32
        ensures { result ≡ number_of self }
    {
        match self {
            OpenFault::BadProducers => 32,
            OpenFault::BadLimit => 33,
            OpenFault::NoMemory => 40,
        }
    }

    /// The fault's name, as programs print it.
    pub fn name(self) -> &'static str
        ensures { result.now ≡ name_of self }
    {
        match self {
            OpenFault::BadProducers => "bad-producers",
            OpenFault::BadLimit => "bad-limit",
            OpenFault::NoMemory => "no-memory",
        }
    }
}

impl fmt::Display for OpenFault {
    ghost output = { λ fault. Some (name_of fault) };

    fn fmt<W: fmt::Write>(&self, f: &mut fmt::Formatter<W>) -> fmt::Result {
        f.write_str(self.name())
    }
}

impl From<AllocError> for OpenFault {
    ghost from_gives = { λ _ fault. fault ≡ NoMemory };

    fn from(_: AllocError) -> OpenFault {
        OpenFault::NoMemory
    }
}

impl<T: Drop> From<AllocFailed<T>> for OpenFault {
    ghost from_gives = { λ _ fault. fault ≡ NoMemory };

    fn from(_: AllocFailed<T>) -> OpenFault {
        OpenFault::NoMemory
    }
}
