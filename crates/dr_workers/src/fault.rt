//! Why a worker ends with a fault.

ghost use Rattle.std.specs.Prelude.{◌≡◌, Some};
ghost use Rattle.dr_workers.specs.Calls.Fault.{name_of, number_of};

use dr_meaning::Refusal;
use std::fmt;
use thiserror::Error;

/// Why a worker did not do all of its work, or was told to do no more.
#[derive(Clone, Copy, Debug, PartialEq, Eq, Error)]
pub enum WorkFault {
    /// The exchange refused a call.
    Refused(Refusal),
    /// An allocation failed.
    Memory,
    /// The gate answered `Stop`.
    Stopped,
}

impl WorkFault {
    /// The fault's number, which stays the same in every release.
    pub fn number(self) -> u32
        ensures { result ≡ number_of self }
    {
        match self {
            WorkFault::Refused(_) => 53,
            WorkFault::Memory => 40,
            WorkFault::Stopped => 54,
        }
    }

    /// The fault's name, as programs print it.
    pub fn name(self) -> &'static str
        ensures { result.now ≡ name_of self }
    {
        match self {
            WorkFault::Refused(_) => "worker-refused",
            WorkFault::Memory => "no-memory",
            WorkFault::Stopped => "stopped",
        }
    }
}

impl fmt::Display for WorkFault {
    ghost output = { λ fault. Some (name_of fault) };

    fn fmt<W: fmt::Write>(&self, f: &mut fmt::Formatter<W>) -> fmt::Result {
        f.write_str(self.name())
    }
}
