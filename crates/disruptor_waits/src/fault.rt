//! Why a run fails, or does not begin.

use dr_disruptor::RunFault;
use dr_meaning::Refusal;
use dr_workers::WorkFault;
use std::alloc::{AllocError, AllocFailed};
use std::{fmt, io};

/// Why the program ends early. Its text is the line that it prints.
#[derive(Clone, Copy)]
pub enum Fault {
    Usage,
    /// Memory ran out, or a thread could not be started: graphs, sizes and rings of this program are never refused.
    Memory,
    /// A worker did not do all of its work.
    Worker { who: usize, fault: WorkFault },
    /// A run's sender was refused a call.
    Refused(Refusal),
    /// There is no clock, or nothing can be written.
    Outside,
    /// An event took longer than it may.
    Late,
    /// The last handler did not note some event.
    Lost,
}

impl Fault {
    /// The status with which the program ends.
    pub fn status(self) -> u8 {
        match self {
            Fault::Usage => 1,
            Fault::Memory | Fault::Worker { .. } | Fault::Refused(_) => 3,
            Fault::Outside => 4,
            Fault::Late | Fault::Lost => 5,
        }
    }
}

impl fmt::Display for Fault {
    fn fmt<W: fmt::Write>(&self, f: &mut fmt::Formatter<W>) -> fmt::Result {
        match self {
            Fault::Usage => f.write_str(
                "usage: disruptor_waits --check | lone STRATEGY EVENTS | idle STRATEGY SECONDS | one-slot EVENTS MICROS | rate STRATEGY THOUSANDS CUT | latency EXCHANGE STRATEGY EVENTS NANOS",
            ),
            Fault::Memory => f.write_str("no memory, or no thread"),
            Fault::Worker { who, fault } => {
                let fault = fault.name();
                write!(f, "worker {who}: {fault}")
            }
            Fault::Refused(refusal) => write!(f, "a sender: {refusal}"),
            Fault::Outside => f.write_str("no clock, or cannot write"),
            Fault::Late => f.write_str("an event came late"),
            Fault::Lost => f.write_str("an event was not noted"),
        }
    }
}

impl From<RunFault> for Fault {
    fn from(fault: RunFault) -> Fault {
        match fault {
            RunFault::Refused(refusal) => Fault::Refused(refusal),
            _ => Fault::Memory,
        }
    }
}

impl From<Refusal> for Fault {
    fn from(refusal: Refusal) -> Fault {
        Fault::Refused(refusal)
    }
}

impl From<AllocError> for Fault {
    fn from(_: AllocError) -> Fault {
        Fault::Memory
    }
}

impl<T: Drop> From<AllocFailed<T>> for Fault {
    fn from(_: AllocFailed<T>) -> Fault {
        Fault::Memory
    }
}

impl From<io::Error> for Fault {
    fn from(_: io::Error) -> Fault {
        Fault::Outside
    }
}
