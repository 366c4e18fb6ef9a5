//! What an exchange of events means, and what its ends are.
//!
//! Begin with the room `specs/Meaning`: `Machine` says what each call answers and leaves, `Transcript` what a list
//! of calls and answers says of each sequence and each handler, and `Laws` what holds of every
//! transcript. [`every_transcript_is_lawful`] is that theorem, and [`every_transcript_tells_its_state`] ties what
//! transcripts say to the machine's state. [`Inlet`] and [`Outlet`] are the ends of any exchange,
//! [`InPlaceInlet`] and [`InPlaceOutlet`] of one whose events stay where they lie, and an
//! [`InPlaceHandler`] or [`Handler`] is shown the events.
#![tactic(auto)]

pub mod claim_fault;
pub mod command;
pub mod ends;
pub mod handler;
pub mod in_place;
pub mod lawful;
pub mod limit;
pub mod mode;
pub mod open_fault;
pub mod refusal;

pub use claim_fault::ClaimFault;
pub use command::{Claimed, Command, Polled, Reply};
pub use ends::{Inlet, Outlet, Trouble, Wrote};
pub use handler::{ByValue, Handler, InPlaceHandler, show, show_in_place};
pub use in_place::{InPlaceInlet, InPlaceOutlet};
pub use lawful::{
    every_state_can_finish, every_transcript_is_lawful, every_transcript_tells_its_state,
    handlers_come_to_rest, laws_refuse_a_step_too_far, laws_refuse_a_step_too_far_of_two_producers,
    nobody_is_stuck, retirement_keeps_the_gate,
};
pub use limit::{MAX_LIMIT, is_valid_limit};
pub use mode::{MAX_PRODUCERS, Mode};
pub use open_fault::OpenFault;
pub use refusal::Refusal;
