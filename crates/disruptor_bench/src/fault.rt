//! Why nothing is measured.

use dr_disruptor::RunFault;
use dr_graph::GraphFault;
use dr_meaning::{Refusal, Trouble};
use std::alloc::{AllocError, AllocFailed};
use std::{fmt, io};

/// Why the program ends early: the line that it prints, and the status with which it ends.
#[derive(Clone, Copy)]
pub struct Fault {
    line: &'static str,
    pub status: u8,
}

impl Fault {
    pub const USAGE: Fault = Fault {
        line: "usage: disruptor_bench TOPOLOGY SIZE SECONDS ROUNDS, or disruptor_bench --list, or disruptor_bench --check",
        status: 1,
    };

    /// Also where a ring or a core is not opened: its limit and its numbers of ends are never refused.
    pub const MEMORY: Fault = Fault {
        line: "no-memory",
        status: 3,
    };

    pub const OUTSIDE: Fault = Fault {
        line: "no clock, or cannot write",
        status: 4,
    };

    pub const THREAD: Fault = Fault {
        line: "no thread",
        status: 4,
    };

    /// An end behind the lock was not given out, or not given back.
    pub const ENDS: Fault = Fault {
        line: "ends",
        status: 5,
    };

    /// A handler did not add up all that was published.
    pub const WRONG_SUM: Fault = Fault {
        line: "wrong sum",
        status: 5,
    };

    /// The clock stood still for more turns than any round has.
    pub const NO_END: Fault = Fault {
        line: "no end",
        status: 5,
    };
}

impl fmt::Display for Fault {
    fn fmt<W: fmt::Write>(&self, f: &mut fmt::Formatter<W>) -> fmt::Result {
        f.write_str(self.line)
    }
}

impl From<AllocError> for Fault {
    fn from(_: AllocError) -> Fault {
        Fault::MEMORY
    }
}

impl<T: Drop> From<AllocFailed<T>> for Fault {
    fn from(_: AllocFailed<T>) -> Fault {
        Fault::MEMORY
    }
}

impl From<io::Error> for Fault {
    fn from(_: io::Error) -> Fault {
        Fault::OUTSIDE
    }
}

impl From<GraphFault> for Fault {
    fn from(fault: GraphFault) -> Fault {
        Fault {
            line: fault.name(),
            status: 3,
        }
    }
}

impl From<RunFault> for Fault {
    fn from(fault: RunFault) -> Fault {
        match fault {
            RunFault::Graph(fault) => Fault::from(fault),
            RunFault::Refused(refusal) => Fault::from(refusal),
            RunFault::Memory => Fault::MEMORY,
            RunFault::Size(_) | RunFault::Handlers { .. } | RunFault::Senders { .. } =>
                Fault::USAGE,
        }
    }
}

impl From<Refusal> for Fault {
    fn from(refusal: Refusal) -> Fault {
        Fault {
            line: refusal.name(),
            status: 5,
        }
    }
}

impl From<Trouble> for Fault {
    fn from(trouble: Trouble) -> Fault {
        match trouble {
            Trouble::Refused(refusal) => Fault::from(refusal),
            Trouble::Memory => Fault::MEMORY,
        }
    }
}
