//! The replays of a file of operations: one core on one thread, a core behind a lock, or the ring.
//!
//! [`replay_plain`] reads a file of operations and writes the report of its events, and so does
//! [`replay_ring`], with a thread for each handler; [`replay_lock`] has a thread for each producer too,
//! and reports a merge. Begin with `dr_accounts/specs/ReplayText`, what a file has a replay write, and
//! `specs/Meaning`, what each producer is to send. What a run leaves written, and when it fails, is one
//! definition for all tools: `dr_files/specs/Outcome`.
#![tactic(auto)]

mod fault;
mod given_back;
mod lock;
mod lock_workers;
mod one_thread;
mod outcome;
mod part;
mod ring;
mod scripts;

pub use dr_files::{Counted, FileFault};
pub use dr_operations::Cause;
pub use fault::ReplayFault;
pub use lock::replay_lock;
pub use one_thread::replay_plain;
pub use ring::replay_ring;
