//! Why a record of a command file is not taken.

ghost use Rattle.std.specs.Prelude.{◌≡◌, Some};
ghost use Rattle.dr_drive.specs.Meaning.Causes.{cause_name};
ghost use Rattle.dr_drive.specs.Inside.Faults.{fault_at};

use dr_files::{FileFault, Named};
use dr_graph::GraphFault;
use dr_meaning::OpenFault;
use dr_seq::SizeFault;
use std::alloc::AllocError;
use std::fmt;

/// Why a record of a command file is at fault. Its text is its name.
#[derive(Clone, Copy, Debug, PartialEq, Eq)]
pub enum Cause {
    /// The first record is no `ring` record, or there is no record.
    NoRing,
    /// An unknown first field, a wrong number of fields, a field that must be a number and is
    /// none, an unknown mode, or a record out of its place.
    BadRecord,
    /// The size is no ring's size.
    BadSize,
    /// There are no producers, or more than 16.
    BadProducers,
    /// The limit of sequences is 0 or above 2^62.
    BadLimit,
    /// A `then` without a current group.
    NoGroup,
    /// The graph of handlers is refused, at the record whose call refused.
    Graph(GraphFault),
    /// The file ends before `start`.
    NoStart,
}

impl Named for Cause {
    ghost name_of = { cause_name };

    fn name(&self) -> &'static str {
        match self {
            Cause::NoRing => "no ring",
            Cause::BadRecord => "bad record",
            Cause::BadSize => SizeFault.name(),
            Cause::BadProducers => OpenFault::BadProducers.name(),
            Cause::BadLimit => OpenFault::BadLimit.name(),
            Cause::NoGroup => "no group",
            Cause::Graph(fault) => fault.name(),
            Cause::NoStart => "no start",
        }
    }
}

impl fmt::Display for Cause {
    ghost output = { λ cause. Some (cause_name cause) };

    fn fmt<W: fmt::Write>(&self, f: &mut fmt::Formatter<W>) -> fmt::Result {
        f.write_str(self.name())
    }
}

/// Why a run over a file of commands ended early.
pub type DriveFault = FileFault<Cause>;

/// Why a record is not taken.
#[derive(Clone, Copy, Debug, PartialEq, Eq)]
pub enum RecordFault {
    /// The record is at fault.
    Cause(Cause),
    /// There is no memory for what the record needs.
    Memory,
}

impl RecordFault {
    /// The fault of the file in which this is met at the record `k`, counted from 1.
    pub fn at(self, k: u64) -> DriveFault
        ensures { result ≡ fault_at k self }
    {
        match self {
            RecordFault::Cause(cause) => FileFault::Input { k, cause },
            RecordFault::Memory => FileFault::Memory,
        }
    }
}

impl From<Cause> for RecordFault {
    ghost use Rattle.std.specs.Prelude.{◌≡◌};
    ghost use Rattle.dr_drive.specs.declared.fault.RecordFault.TheVariants as fault;

    ghost from_gives = { λ cause e. e ≡ fault.Cause cause };

    fn from(cause: Cause) -> RecordFault {
        RecordFault::Cause(cause)
    }
}

impl From<AllocError> for RecordFault {
    ghost use Rattle.std.specs.Prelude.{◌≡◌};
    ghost use Rattle.dr_drive.specs.declared.fault.RecordFault.TheVariants as fault;

    ghost from_gives = { λ _ e. e ≡ fault.Memory };

    fn from(_error: AllocError) -> RecordFault {
        RecordFault::Memory
    }
}

impl From<GraphFault> for RecordFault {
    ghost use Rattle.std.specs.Prelude.{◌≡◌};
    ghost use Rattle.dr_drive.specs.Inside.Faults.{refused_by};

    ghost from_gives = { λ refused e. e ≡ refused_by refused };

    fn from(refused: GraphFault) -> RecordFault {
        match refused {
            GraphFault::NoMemory => RecordFault::Memory,
            other => RecordFault::Cause(Cause::Graph(other)),
        }
    }
}
