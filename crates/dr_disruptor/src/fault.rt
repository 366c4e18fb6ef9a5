//! Why a run did not come to its end.

ghost use Rattle.std.specs.Prelude.{◌≡◌};
ghost use Rattle.dr_disruptor.specs.declared.fault.RunFault.TheVariants as fault;

use dr_graph::GraphFault;
use dr_meaning::Refusal;
use dr_seq::SizeFault;
use std::alloc::{AllocError, AllocFailed};
use thiserror::Error;

/// Why there was no run, or why a run did not do all of its work.
#[derive(Debug, Drop, Error)]
pub enum RunFault {
    /// The graph was refused.
    #[error("the graph: {0}")]
    Graph(GraphFault),
    /// No ring has this size.
    #[error("the size: {0}")]
    Size(SizeFault),
    /// There are more or fewer handlers than the graph has.
    #[error("the graph has {graph} handlers, and {given} were given")]
    Handlers { graph: usize, given: usize },
    /// Of a run with several senders: there are no closures to send, or more than 16.
    #[error("a run has 1 to 16 senders, and {given} were asked for")]
    Senders { given: usize },
    /// An allocation failed, or a thread could not be started.
    #[error("no memory, or no thread")]
    Memory,
    /// A sender's call was refused.
    #[error("a sender: {0}")]
    Refused(Refusal),
}

impl From<GraphFault> for RunFault {
    ghost from_gives = { λ refused given. given ≡ fault.Graph refused };

    fn from(refused: GraphFault) -> RunFault {
        RunFault::Graph(refused)
    }
}

impl From<SizeFault> for RunFault {
    ghost from_gives = { λ refused given. given ≡ fault.Size refused };

    fn from(refused: SizeFault) -> RunFault {
        RunFault::Size(refused)
    }
}

impl From<Refusal> for RunFault {
    ghost from_gives = { λ refused given. given ≡ fault.Refused refused };

    fn from(refused: Refusal) -> RunFault {
        RunFault::Refused(refused)
    }
}

impl From<AllocError> for RunFault {
    ghost from_gives = { λ _ given. given ≡ fault.Memory };

    fn from(_: AllocError) -> RunFault {
        RunFault::Memory
    }
}

impl<T: Drop> From<AllocFailed<T>> for RunFault {
    ghost from_gives = { λ _ given. given ≡ fault.Memory };

    fn from(_: AllocFailed<T>) -> RunFault {
        RunFault::Memory
    }
}
