//! Why handlers are not declared, or a graph is not built.

ghost use Rattle.std.specs.Prelude.{◌≡◌, Some};
ghost use Rattle.dr_graph.specs.Calls.Fault.{fault_number, fault_name};
ghost use Rattle.dr_graph.specs.declared.fault.GraphFault.TheVariants.{NoMemory};

use std::alloc::{AllocError, AllocFailed};
use std::fmt;
use thiserror::Error;

/// Why a call of a builder was refused. Numbers and names are this project's own.
#[derive(Clone, Copy, Debug, PartialEq, Eq, Error)]
pub enum GraphFault {
    /// A name has none or too many bytes, or a byte other than ASCII letters, digits, `_` and `-`.
    BadName,
    /// A name is declared already, or stands twice in one call.
    Duplicate,
    /// A name is not declared.
    Stranger,
    /// A handler is its own upstream, by a path of edges.
    Cycle,
    /// There would be more handlers than a graph has room for.
    TooMany,
    /// No handler was declared.
    NoHandlers,
    /// A call was passed no name.
    EmptyGroup,
    /// An allocation failed.
    NoMemory,
}

impl GraphFault {
    ghost use Rattle.dr_graph.specs.Calls.Fault.{fault_number, fault_name};

    /// The number by which files and logs know the fault.
    pub fn number(self) -> u32
        ensures { result ≡ fault_number self }
    {
        match self {
            GraphFault::BadName => 21,
            GraphFault::Duplicate => 22,
            GraphFault::Stranger => 23,
            GraphFault::Cycle => 24,
            GraphFault::TooMany => 25,
            GraphFault::NoHandlers => 26,
            GraphFault::EmptyGroup => 27,
            GraphFault::NoMemory => 40,
        }
    }

    /// The name of the fault, which is also its printed text.
    pub fn name(self) -> &'static str
        ensures { result.now ≡ fault_name self }
    {
        match self {
            GraphFault::BadName => "bad-name",
            GraphFault::Duplicate => "duplicate",
            GraphFault::Stranger => "stranger",
            GraphFault::Cycle => "cycle",
            GraphFault::TooMany => "too-many",
            GraphFault::NoHandlers => "no-handlers",
            GraphFault::EmptyGroup => "empty-group",
            GraphFault::NoMemory => "no-memory",
        }
    }
}

impl fmt::Display for GraphFault {
    ghost output = { λ fault. Some (fault_name fault) };

    fn fmt<W: fmt::Write>(&self, f: &mut fmt::Formatter<W>) -> fmt::Result {
        f.write_str(self.name())
    }
}

impl From<AllocError> for GraphFault {
    ghost from_gives = { λ _ fault. fault ≡ NoMemory };

    fn from(_error: AllocError) -> GraphFault {
        GraphFault::NoMemory
    }
}

impl<T: Drop> From<AllocFailed<T>> for GraphFault {
    ghost from_gives = { λ _ fault. fault ≡ NoMemory };

    fn from(_error: AllocFailed<T>) -> GraphFault {
        GraphFault::NoMemory
    }
}
