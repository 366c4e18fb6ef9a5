//! Why a run over a file ends early.

ghost use Rattle.std.specs.Prelude.{◌≡◌, List, Some, ℕ};
ghost use Rattle.dr_files.specs.Faults.{fault_line, fault_status};

use crate::streams::{ReadFault, WriteFault};
use std::alloc::{AllocError, AllocFailed};
use std::fmt;
use thiserror::Error;

/// What a record may be at fault by: each tool has causes of its own.
pub trait Named {
    /// The cause's name, as bytes.
    ghost name_of: { Self → List ℕ };

    /// The cause's name, as programs print it.
    fn name(&self) -> &'static str
        ensures { result.now ≡ name_of self.now };
}

/// Why a run over a file ended early. Its text is the line that a program prints, without its end.
#[derive(Debug, Drop, Error)]
pub enum FileFault<C> {
    /// The record `k`, counted from 1, is at fault.
    Input { k: u64, cause: C },
    /// There is no memory for what the run needs.
    Memory,
    /// A read failed.
    Read,
    /// A write failed.
    Write,
}

impl<C> FileFault<C> {
    /// The status with which a program ends that meets this fault.
    pub fn status(&self) -> u8
        ensures { result ≡ fault_status self.now }
    {
        match self {
            FileFault::Input { .. } => 2,
            FileFault::Memory => 3,
            FileFault::Read => 4,
            FileFault::Write => 4,
        }
    }
}

impl<C: Named> fmt::Display for FileFault<C> {
    ghost output = { λ fault. Some (fault_line C.name_of fault) };

    fn fmt<W: fmt::Write>(&self, f: &mut fmt::Formatter<W>) -> fmt::Result {
        match self {
            FileFault::Input { k, cause } => {
                let name = cause.name();
                write!(f, "record {k}: {name}")
            }
            FileFault::Memory => write!(f, "no-memory"),
            FileFault::Read => write!(f, "cannot read"),
            FileFault::Write => write!(f, "cannot write"),
        }
    }
}

impl<C> From<AllocError> for FileFault<C> {
    ghost use Rattle.std.specs.Prelude.{◌≡◌};
    ghost use Rattle.dr_files.specs.declared.fault.FileFault.TheVariants as fault;

    ghost from_gives = { λ _ e. e ≡ fault.Memory };

    fn from(_error: AllocError) -> FileFault<C> {
        FileFault::Memory
    }
}

impl<C, T: Drop> From<AllocFailed<T>> for FileFault<C> {
    ghost use Rattle.std.specs.Prelude.{◌≡◌};
    ghost use Rattle.dr_files.specs.declared.fault.FileFault.TheVariants as fault;

    ghost from_gives = { λ _ e. e ≡ fault.Memory };

    fn from(_error: AllocFailed<T>) -> FileFault<C> {
        FileFault::Memory
    }
}

impl<C> From<ReadFault> for FileFault<C> {
    ghost use Rattle.std.specs.Prelude.{◌≡◌};
    ghost use Rattle.dr_files.specs.Faults.{read_fault};

    ghost from_gives = { λ fault e. e ≡ read_fault fault };

    fn from(fault: ReadFault) -> FileFault<C> {
        match fault {
            ReadFault::Memory => FileFault::Memory,
            ReadFault::Read => FileFault::Read,
        }
    }
}

impl<C> From<WriteFault> for FileFault<C> {
    ghost use Rattle.std.specs.Prelude.{◌≡◌};
    ghost use Rattle.dr_files.specs.declared.fault.FileFault.TheVariants as fault;

    ghost from_gives = { λ _ e. e ≡ fault.Write };

    fn from(_fault: WriteFault) -> FileFault<C> {
        FileFault::Write
    }
}
