//! Why a replay ends early.

ghost use Rattle.std.specs.Prelude.{◌≡◌, Some};
ghost use Rattle.dr_replay.specs.Calls.ReplayFaults.{replay_line, replay_status};

use dr_files::{FileFault, WriteFault};
use dr_lock::AuditFault;
use dr_operations::Cause;
use dr_workers::WorkFault;
use std::alloc::{AllocError, AllocFailed};
use std::fmt;
use thiserror::Error;

/// Why a replay ended early. Its text is the line that a program prints.
#[derive(Debug, Drop, Error)]
pub enum ReplayFault {
    /// The file is at fault, or what reads and writes it.
    File(FileFault<Cause>),
    /// A worker was stopped at its gate; none is refused a call. Workers are numbered as for gates.
    Worker { who: usize, fault: WorkFault },
    /// A history is not what the producers were to send, or a handler did not take all of it.
    Audit(AuditFault),
}

impl ReplayFault {
    /// The status with which a program ends that meets this fault.
    pub fn status(&self) -> u8
        ensures { result ≡ replay_status self.now }
    {
        match self {
            ReplayFault::File(fault) => fault.status(),
            ReplayFault::Worker { .. } => 5,
            ReplayFault::Audit(AuditFault::NoMemory) => 3,
            ReplayFault::Audit(_) => 5,
        }
    }
}

impl fmt::Display for ReplayFault {
    ghost output = { λ fault. Some (replay_line fault) };

    fn fmt<W: fmt::Write>(&self, f: &mut fmt::Formatter<W>) -> fmt::Result {
        match self {
            ReplayFault::File(fault) => write!(f, "{fault}"),
            ReplayFault::Worker { who, fault } => write!(f, "{} {who}", fault.name()),
            ReplayFault::Audit(AuditFault::ScriptDiffers(p)) => write!(f, "script-differs {p}"),
            ReplayFault::Audit(AuditFault::NotDrained(h)) => write!(f, "not-drained {h}"),
            ReplayFault::Audit(AuditFault::NoMemory) => write!(f, "no-memory"),
        }
    }
}

impl From<FileFault<Cause>> for ReplayFault {
    ghost use Rattle.std.specs.Prelude.{◌≡◌};
    ghost use Rattle.dr_replay.specs.declared.fault.ReplayFault.TheVariants as fault;

    ghost from_gives = { λ file e. e ≡ fault.File file };

    fn from(file: FileFault<Cause>) -> ReplayFault {
        ReplayFault::File(file)
    }
}

impl From<WriteFault> for ReplayFault {
    ghost use Rattle.std.specs.Prelude.{◌≡◌};
    ghost use Rattle.dr_files.specs.declared.fault.FileFault.TheVariants as file;
    ghost use Rattle.dr_replay.specs.declared.fault.ReplayFault.TheVariants as fault;

    ghost from_gives = { λ _ e. e ≡ fault.File file.Write };

    fn from(_failed: WriteFault) -> ReplayFault {
        ReplayFault::File(FileFault::Write)
    }
}

impl From<AllocError> for ReplayFault {
    ghost use Rattle.std.specs.Prelude.{◌≡◌};
    ghost use Rattle.dr_files.specs.declared.fault.FileFault.TheVariants as file;
    ghost use Rattle.dr_replay.specs.declared.fault.ReplayFault.TheVariants as fault;

    ghost from_gives = { λ _ e. e ≡ fault.File file.Memory };

    fn from(_error: AllocError) -> ReplayFault {
        ReplayFault::File(FileFault::Memory)
    }
}

impl<T: Drop> From<AllocFailed<T>> for ReplayFault {
    ghost use Rattle.std.specs.Prelude.{◌≡◌};
    ghost use Rattle.dr_files.specs.declared.fault.FileFault.TheVariants as file;
    ghost use Rattle.dr_replay.specs.declared.fault.ReplayFault.TheVariants as fault;

    ghost from_gives = { λ _ e. e ≡ fault.File file.Memory };

    fn from(_error: AllocFailed<T>) -> ReplayFault {
        ReplayFault::File(FileFault::Memory)
    }
}
