//! Why a ledger ends early.

ghost use Rattle.std.specs.Prelude.{◌≡◌, Some};
ghost use Rattle.dr_files.specs.declared.streams.WriteFault.{WriteFault};
ghost use Rattle.dr_ledger.specs.Faults.{fault_of_file, fault_of_journal, ledger_line, ledger_status};
ghost use Rattle.dr_ledger.specs.declared.fault.LedgerFault.TheVariants as fault;

use dr_files::{FileFault, WriteFault};
use dr_journal::JournalFault;
use dr_operations::Cause;
use std::alloc::{AllocError, AllocFailed};
use std::fmt;
use thiserror::Error;

/// Why a ledger ended early. What it answered before is on the disk, whichever it is. Its text is the
/// line that a program prints, without its end.
#[derive(Clone, Copy, Debug, PartialEq, Eq, Error)]
pub enum LedgerFault {
    /// The record `k` of the input, counted from 1, is no operation. All before it is answered.
    BadRecord(u64),
    /// There is no memory.
    Memory,
    /// The input cannot be read. All that came before is answered.
    Read,
    /// An answer cannot be written.
    Write,
    /// The disk of the journal or of the replica failed. What they have now, only an opening tells.
    Disk,
    /// The journal or the replica would have over 2^60 bytes.
    Full,
}

impl LedgerFault {
    /// The status with which a program ends that meets this fault.
    pub fn status(&self) -> u8
        ensures { result ≡ ledger_status self.now }
    {
        match self {
            LedgerFault::BadRecord(_) => 2,
            LedgerFault::Memory => 3,
            LedgerFault::Read => 4,
            LedgerFault::Write => 4,
            LedgerFault::Disk => 4,
            LedgerFault::Full => 4,
        }
    }
}

impl fmt::Display for LedgerFault {
    ghost output = { λ fault. Some (ledger_line fault) };

    fn fmt<W: fmt::Write>(&self, f: &mut fmt::Formatter<W>) -> fmt::Result {
        match self {
            LedgerFault::BadRecord(k) => write!(f, "record {k}: bad record"),
            LedgerFault::Memory => write!(f, "no-memory"),
            LedgerFault::Read => write!(f, "cannot read"),
            LedgerFault::Write => write!(f, "cannot write"),
            LedgerFault::Disk => write!(f, "cannot write"),
            LedgerFault::Full => write!(f, "cannot write"),
        }
    }
}

impl From<AllocError> for LedgerFault {
    ghost from_gives = { λ _ given. given ≡ fault.Memory };

    fn from(_error: AllocError) -> LedgerFault {
        LedgerFault::Memory
    }
}

impl<T: Drop> From<AllocFailed<T>> for LedgerFault {
    ghost from_gives = { λ _ given. given ≡ fault.Memory };

    fn from(_error: AllocFailed<T>) -> LedgerFault {
        LedgerFault::Memory
    }
}

impl From<WriteFault> for LedgerFault {
    ghost from_gives = { λ _ given. given ≡ fault.Write };

    fn from(_fault: WriteFault) -> LedgerFault {
        LedgerFault::Write
    }
}

impl From<JournalFault> for LedgerFault {
    ghost from_gives = { λ given_fault given. given ≡ fault_of_journal given_fault };

    fn from(fault: JournalFault) -> LedgerFault {
        match fault {
            JournalFault::NoMemory => LedgerFault::Memory,
            JournalFault::Failed => LedgerFault::Disk,
            JournalFault::Full => LedgerFault::Full,
        }
    }
}

impl From<FileFault<Cause>> for LedgerFault {
    ghost from_gives = { λ given_fault given. given ≡ fault_of_file given_fault };

    fn from(fault: FileFault<Cause>) -> LedgerFault {
        match fault {
            FileFault::Input { k, .. } => LedgerFault::BadRecord(k),
            FileFault::Memory => LedgerFault::Memory,
            FileFault::Read => LedgerFault::Read,
            FileFault::Write => LedgerFault::Write,
        }
    }
}
