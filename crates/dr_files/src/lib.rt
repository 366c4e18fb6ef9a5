//! Files, as the tools over them read and write: readers and writers that count their failures,
//! whole texts, numbers, and why a file is at fault.
//!
//! Begin with `specs/Outcome`: it says what a run over a file that has something to say leaves
//! written, whichever tool it is, and `specs/Faults`, which has the line and the status of each
//! fault.
#![tactic(auto)]

mod counted;
mod fault;
mod numbers;
mod streams;

pub use counted::Counted;
pub use fault::{FileFault, Named};
pub use numbers::number_of;
pub use streams::{ReadFault, WriteFault, read_all, write_text};
