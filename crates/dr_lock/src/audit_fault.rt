//! What an audit finds amiss.

ghost use Rattle.std.specs.Prelude.{◌≡◌, Some};
ghost use Rattle.dr_lock.specs.Calls.AuditFault.{number_of, name_of};
ghost use Rattle.dr_lock.specs.declared.audit_fault.AuditFault.TheVariants.{NoMemory};

use std::alloc::AllocError;
use std::fmt;
use thiserror::Error;

/// What an audit finds amiss. Its three faults are this project's own.
#[derive(Clone, Copy, Debug, PartialEq, Eq, Error)]
pub enum AuditFault {
    /// The least producer whose published events are not its script.
    ScriptDiffers(u64),
    /// The least handler, of those that are not retired, that did not take every published event.
    NotDrained(usize),
    /// An allocation failed.
    NoMemory,
}

impl AuditFault {
    /// The fault's number, which stays the same in every release.
    pub fn number(self) -> u32
        ensures { result ≡ number_of self }
    {
        match self {
            AuditFault::ScriptDiffers(_) => 51,
            AuditFault::NotDrained(_) => 52,
            AuditFault::NoMemory => 40,
        }
    }

    /// The fault's name, as programs print it.
    pub fn name(self) -> &'static str
        ensures { result.now ≡ name_of self }
    {
        match self {
            AuditFault::ScriptDiffers(_) => "script-differs",
            AuditFault::NotDrained(_) => "not-drained",
            AuditFault::NoMemory => "no-memory",
        }
    }
}

impl fmt::Display for AuditFault {
    ghost output = { λ fault. Some (name_of fault) };

    fn fmt<W: fmt::Write>(&self, f: &mut fmt::Formatter<W>) -> fmt::Result {
        f.write_str(self.name())
    }
}

impl From<AllocError> for AuditFault {
    ghost from_gives = { λ _ fault. fault ≡ NoMemory };

    fn from(_: AllocError) -> AuditFault {
        AuditFault::NoMemory
    }
}
