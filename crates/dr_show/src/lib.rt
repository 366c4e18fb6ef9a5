//! The tool `show`: a file of commands in, a page out that shows each step of its exchange.
//!
//! Begin with the room `specs/Meaning`. `PageText` says what a page has of a file: a fixed text, then
//! an object of each record, which is its text, the reply of `drive` and the machine's state after it
//! (`StateText`; [`laws`] says what its words are in the machine), and a fixed text. [`show`] reads a
//! file and writes its page. What is drawn of the objects is the page's own script.
#![tactic(auto)]

mod course;
mod exchanges;
mod handlers;
pub mod laws;
mod objects;
mod rounds;
mod sequences;
mod texts;
mod tool;

pub use dr_drive::{Counted, DriveFault};
pub use tool::{Window, show};
