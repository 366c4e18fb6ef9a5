//! What a check finds.

ghost use Rattle.std.specs.Prelude.{◌≡◌, Some};
ghost use Rattle.dr_check.specs.Verdict.{cause_name, check_line, check_status};

use dr_files::{Named, ReadFault};
use std::alloc::AllocError;
use std::fmt;
use thiserror::Error;

/// Why a record is at fault: a cause of the tool whose file it stands in.
#[derive(Clone, Copy, Debug, PartialEq, Eq)]
pub enum Cause {
    /// In a file of commands.
    Drive(dr_drive::Cause),
    /// In a file of operations.
    Replay(dr_operations::Cause),
}

impl Named for Cause {
    ghost name_of = { cause_name };

    fn name(&self) -> &'static str {
        match self {
            Cause::Drive(cause) => cause.name(),
            Cause::Replay(cause) => cause.name(),
        }
    }
}

/// Why a file is not well, or could not be checked. Its text is what a program prints, without its
/// end: for a record the line of the tool's own fault, and below it where the fault stands.
#[derive(Debug, Drop, Error)]
pub enum CheckFault {
    /// The record `k`, counted from 1, is at fault. The text says in which line and at which field,
    /// and what may stand there.
    Record { k: u64, cause: Cause, told: String },
    /// There is no memory for the check.
    Memory,
    /// A read failed.
    Read,
}

impl CheckFault {
    /// The status with which a program ends that meets this fault.
    pub fn status(&self) -> u8
        ensures { result ≡ check_status self.now }
    {
        match self {
            CheckFault::Record { .. } => 2,
            CheckFault::Memory => 3,
            CheckFault::Read => 4,
        }
    }
}

impl fmt::Display for CheckFault {
    ghost output = { λ fault. Some (check_line fault) };

    fn fmt<W: fmt::Write>(&self, f: &mut fmt::Formatter<W>) -> fmt::Result {
        match self {
            CheckFault::Record { k, cause, told } => {
                let name = cause.name();
                write!(f, "record {k}: {name}\n{told}")
            }
            CheckFault::Memory => write!(f, "no-memory"),
            CheckFault::Read => write!(f, "cannot read"),
        }
    }
}

impl From<AllocError> for CheckFault {
    ghost use Rattle.std.specs.Prelude.{◌≡◌};
    ghost use Rattle.dr_check.specs.declared.fault.CheckFault.TheVariants as fault;

    ghost from_gives = { λ _ e. e ≡ fault.Memory };

    fn from(_error: AllocError) -> CheckFault {
        CheckFault::Memory
    }
}

impl From<ReadFault> for CheckFault {
    ghost use Rattle.std.specs.Prelude.{◌≡◌};
    ghost use Rattle.dr_check.specs.Verdict.{unread};

    ghost from_gives = { λ fault e. e ≡ unread fault };

    fn from(fault: ReadFault) -> CheckFault {
        match fault {
            ReadFault::Memory => CheckFault::Memory,
            ReadFault::Read => CheckFault::Read,
        }
    }
}
