//! The tool `drive`: a file of commands in, a line a reply out.
//!
//! Begin with the room `specs/Meaning`. `DriveText` says what a file of commands means, line by line,
//! by the setup (`Setup`), the commands (`Commands`), the machine's own step, and the reply lines
//! (`Lines`), after which that of the state may follow (`StateLine`; [`laws`] says what its numbers
//! are in the machine). [`drive`] reads such a file and writes its text. What a run leaves written,
//! and when it fails, is one definition for all tools: `dr_files/specs/Outcome`. A tool of another
//! kind takes a file's records by [`setup::prepare`] and [`Exchange`].
#![tactic(auto)]

mod commands;
pub mod exchange;
mod fault;
pub mod laws;
mod lines;
pub mod setup;
pub mod standing;
mod states;
mod tool;

pub use dr_files::{Counted, FileFault};
pub use exchange::Exchange;
pub use fault::{Cause, DriveFault, RecordFault};
pub use lines::put_line;
pub use tool::{drive, drive_telling};
