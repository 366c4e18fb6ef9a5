//! Why a ledger does not start.

ghost use Rattle.std.specs.Prelude.{◌≡◌, Some};
ghost use Rattle.dr_ledger.specs.Faults.{open_status, start_line, start_status};
ghost use Rattle.dr_ledger.specs.declared.start_fault.StartFault.TheVariants as fault;

use crate::LedgerFault;
use dr_journal::{JournalFault, OpenFault};
use std::alloc::{AllocError, AllocFailed};
use std::fmt;
use thiserror::Error;

/// Why a ledger does not start. Its text is the line that a program prints, without its end.
#[derive(Clone, Copy, Debug, PartialEq, Eq, Error)]
pub enum StartFault {
    /// The journal is not opened.
    Journal(OpenFault),
    /// The replica is not opened.
    Replica(OpenFault),
    /// Journal and replica have records of different ledgers: neither's are a beginning of the other's.
    /// Both are as they were.
    Differs,
    /// What is in them is no operation, or cannot be taken over.
    Ledger(LedgerFault),
}

// The status of a file that is not opened.
fn status_of(fault: &OpenFault) -> u8
    ensures { result ≡ open_status fault.now }
{
    match fault {
        OpenFault::NotAJournal => 2,
        OpenFault::InUse => 4,
        OpenFault::Journal(JournalFault::NoMemory) => 3,
        OpenFault::Journal(_) => 4,
    }
}

impl StartFault {
    /// The status with which a program ends that meets this fault.
    pub fn status(&self) -> u8
        ensures { result ≡ start_status self.now }
    {
        match self {
            StartFault::Journal(fault) => status_of(fault),
            StartFault::Replica(fault) => status_of(fault),
            StartFault::Differs => 2,
            StartFault::Ledger(fault) => fault.status(),
        }
    }
}

impl fmt::Display for StartFault {
    ghost output = { λ fault. Some (start_line fault) };

    fn fmt<W: fmt::Write>(&self, f: &mut fmt::Formatter<W>) -> fmt::Result {
        match self {
            StartFault::Journal(fault) => write!(f, "journal: {fault}"),
            StartFault::Replica(fault) => write!(f, "replica: {fault}"),
            StartFault::Differs => write!(f, "replica: differs"),
            StartFault::Ledger(fault) => write!(f, "{fault}"),
        }
    }
}

impl From<LedgerFault> for StartFault {
    ghost from_gives = { λ ended given. given ≡ fault.Ledger ended };

    fn from(ended: LedgerFault) -> StartFault {
        StartFault::Ledger(ended)
    }
}

impl From<AllocError> for StartFault {
    ghost use Rattle.dr_ledger.specs.declared.fault.LedgerFault.TheVariants.{Memory};

    ghost from_gives = { λ _ given. given ≡ fault.Ledger Memory };

    fn from(_error: AllocError) -> StartFault {
        StartFault::Ledger(LedgerFault::Memory)
    }
}

impl<T: Drop> From<AllocFailed<T>> for StartFault {
    ghost use Rattle.dr_ledger.specs.declared.fault.LedgerFault.TheVariants.{Memory};

    ghost from_gives = { λ _ given. given ≡ fault.Ledger Memory };

    fn from(_error: AllocFailed<T>) -> StartFault {
        StartFault::Ledger(LedgerFault::Memory)
    }
}
