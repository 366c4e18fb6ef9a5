//! Operations on accounts: the events that carry them, and the files that have one a record.
//!
//! Begin with `specs/Operations`, the words of an event, and `specs/EventFile`, the records of a file.
//! [`read_events`] reads such a file, whichever tool it is for, and [`EventStream`] one that comes in
//! pieces (`specs/Arriving`). [`push_event_file`] writes one (`specs/Written`).
#![tactic(auto)]

mod cause;
mod event_file;
mod event_stream;
mod operation;
mod text;

pub use cause::Cause;
pub use event_file::read_events;
pub use event_stream::{EventStream, events_of_pieces};
pub use operation::{Movement, Operation, producer_of};
pub use text::{push_event_file, push_number, push_operation};
