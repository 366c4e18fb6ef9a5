//! Why the program ends early.

use dr_disruptor::RunFault;
use dr_journal::{JournalFault, OpenFault, RecordFault};
use std::alloc::AllocError;
use std::io;
use thiserror::Error;

#[derive(Debug, Drop, Error)]
pub enum Fault {
    #[error("the journal is not opened: {0}")]
    Open(#[from] OpenFault),
    #[error("a record of the journal is no order")]
    NoOrder,
    #[error("{0}")]
    Run(#[from] RunFault),
    /// An order may be on the disk or not: only the next start tells.
    #[error("the journal: {0}")]
    Disk(#[from] JournalFault),
    #[error("{0}")]
    System(#[from] io::Error),
}

impl From<RecordFault> for Fault {
    fn from(fault: RecordFault) -> Fault {
        match fault {
            RecordFault::NoMemory => Fault::Run(RunFault::Memory),
            RecordFault::BadRecord(_) => Fault::NoOrder,
        }
    }
}

impl From<AllocError> for Fault {
    fn from(_error: AllocError) -> Fault {
        Fault::Run(RunFault::Memory)
    }
}
