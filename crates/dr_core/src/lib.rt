//! The exchange of events on one thread.
//!
//! A [`Core`] is the machine of `dr_meaning` over slots that are used again: each of its calls is the
//! machine's step on every state that the core shows (`specs/Calls/Shows`). [`every_step_leads_on`] ties its
//! steps to transcripts, and [`run`] has the five laws for a whole list of commands.
#![tactic(auto)]

mod availability;
pub mod engine;
pub mod lawful;
mod least;
pub mod runs;
pub mod turning;

pub use engine::Core;
pub use lawful::{every_answer_is_settled, every_step_leads_on};
pub use runs::{Ran, run};
pub use turning::processor_turn;
