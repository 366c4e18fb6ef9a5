//! Why a call on a device or a journal failed.

ghost use Rattle.std.specs.Prelude.{◌≡◌, Some};
ghost use Rattle.dr_journal.specs.Calls.Faults.{name_of, open_name_of};
ghost use Rattle.dr_journal.specs.declared.fault.JournalFault.TheVariants.{NoMemory};
ghost use Rattle.dr_journal.specs.declared.fault.OpenFault.TheVariants.{Journal};

use std::alloc::{AllocError, AllocFailed};
use std::fmt;
use thiserror::Error;

/// Why a call on a device or a journal did not do what it was asked for.
#[derive(Clone, Copy, Debug, PartialEq, Eq, Error)]
pub enum JournalFault {
    /// An allocation failed. A journal is at rest as before, and the call may be made again.
    NoMemory,
    /// The disk failed: what it has now, only an opening tells.
    Failed,
    /// The file or the batch is over 2^60 bytes. A journal is at rest as before. A device never
    /// tells it: a disk with no room left has failed.
    Full,
}

impl JournalFault {
    /// The fault's name, as programs print it.
    pub fn name(self) -> &'static str
        ensures { result.now ≡ name_of self }
    {
        match self {
            JournalFault::NoMemory => "no-memory",
            JournalFault::Failed => "failed",
            JournalFault::Full => "full",
        }
    }
}

impl fmt::Display for JournalFault {
    ghost output = { λ fault. Some (name_of fault) };

    fn fmt<W: fmt::Write>(&self, f: &mut fmt::Formatter<W>) -> fmt::Result {
        f.write_str(self.name())
    }
}

impl From<AllocError> for JournalFault {
    ghost from_gives = { λ _ fault. fault ≡ NoMemory };

    fn from(_: AllocError) -> JournalFault {
        JournalFault::NoMemory
    }
}

impl<T: Drop> From<AllocFailed<T>> for JournalFault {
    ghost from_gives = { λ _ fault. fault ≡ NoMemory };

    fn from(_: AllocFailed<T>) -> JournalFault {
        JournalFault::NoMemory
    }
}

/// Why a file is not opened as a journal.
#[derive(Clone, Copy, Debug, PartialEq, Eq, Error)]
pub enum OpenFault {
    /// It begins otherwise than a journal, or is no regular file. It is left untouched.
    NotAJournal,
    /// Another has it open as a journal.
    InUse,
    /// It could not be read, repaired or locked.
    Journal(JournalFault),
}

impl OpenFault {
    /// The fault's name, as programs print it.
    pub fn name(self) -> &'static str
        ensures { result.now ≡ open_name_of self }
    {
        match self {
            OpenFault::NotAJournal => "not-a-journal",
            OpenFault::InUse => "in-use",
            OpenFault::Journal(fault) => fault.name(),
        }
    }
}

impl fmt::Display for OpenFault {
    ghost output = { λ fault. Some (open_name_of fault) };

    fn fmt<W: fmt::Write>(&self, f: &mut fmt::Formatter<W>) -> fmt::Result {
        f.write_str(self.name())
    }
}

impl From<JournalFault> for OpenFault {
    ghost from_gives = { λ fault given. given ≡ Journal fault };

    fn from(fault: JournalFault) -> OpenFault {
        OpenFault::Journal(fault)
    }
}
