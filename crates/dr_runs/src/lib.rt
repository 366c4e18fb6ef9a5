//! What all rings have: runs of their steps, what each of their ends saw of them, and what their
//! ends keep.
//!
//! The ends of a ring, which are its senders, its receivers and its halter, stand on threads of
//! their own and share a table of words. A step is one atomic change of one word by one end, and a
//! run is a list of steps from the ring's opening. `specs/Runs.antt` says what a run is,
//! `specs/Seats.antt` which rule the table keeps, by which each end knows the run as it was at its
//! last step, `specs/Gathering.antt` what is known once ends come together, and `specs/Looks.antt`
//! what looks at words come to. What rings with one sender have alone is in `specs/OneSender`: the
//! places of their words, what their ends answer by them, and which open sequences are written.
#![tactic(auto)]

mod counts;
mod look;
mod names;
mod parting;
mod plan;
mod polling;
mod view;
mod words;
mod written;

pub use counts::HandlerCounts;
pub use look::Look;
pub use names::Names;
pub use parting::{Cut, Leave, Together};
pub use plan::copy_upstreams;
pub use polling::{lesser, nothing_offered};
pub use view::View;
pub use words::{CLOSED_WORD, CURSOR_WORD, HALT_WORD, count_word};
pub use written::Written;
