//! Why a run behind a lock did not come to its end.

ghost use Rattle.std.specs.Prelude.{◌≡◌};
ghost use Rattle.dr_disruptor_lock.specs.declared.fault.LockedFault.TheVariants as fault;

use crate::comparing::HistoryFault;
use dr_disruptor::RunFault;
use dr_workers::{WorkFault, WorkerFault};
use thiserror::Error;

/// Why there was no run, or why not all of its work was done and found in its history.
#[derive(Debug, Drop, Error)]
pub enum LockedFault {
    /// There was no run.
    #[error("{0}")]
    Run(RunFault),
    /// A worker did not do all of its work: a handler's by the handler's number, or a sender's, from 16 on.
    #[error("worker {who}: {fault}")]
    Worker { who: usize, fault: WorkFault },
    /// The workers did all of their work, and the history is not theirs.
    #[error("{0}")]
    History(HistoryFault),
}

impl From<RunFault> for LockedFault {
    ghost from_gives = { λ why given. given ≡ fault.Run why };

    fn from(why: RunFault) -> LockedFault {
        LockedFault::Run(why)
    }
}

impl From<WorkerFault> for LockedFault {
    ghost from_gives = { λ first given. given ≡ fault.Worker first.who first.fault };

    fn from(first: WorkerFault) -> LockedFault {
        LockedFault::Worker {
            who: first.who,
            fault: first.fault,
        }
    }
}

impl From<HistoryFault> for LockedFault {
    ghost from_gives = { λ why given. given ≡ fault.History why };

    fn from(why: HistoryFault) -> LockedFault {
        LockedFault::History(why)
    }
}
