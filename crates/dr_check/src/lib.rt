//! A check of a file of commands or of operations: whether a tool would find a record at fault, and
//! if so, in which line, at which field, and what may stand there.
//!
//! Begin with `specs/Verdict`: a check's verdict is the fault of what the file says, as the contracts
//! of `drive` and of the replays have it. Where the fault stands, and what may stand there, is text
//! for a person, of which no contract tells.
#![tactic(auto)]

mod fault;
mod hints;
mod lines;
mod operations;
mod place;
mod records_before;
mod records_of_drive;
mod told;
mod verdict;

pub use fault::{Cause, CheckFault};
pub use verdict::{check_drive, check_replay};
