//! What the contracts of a run and of its senders' calls say, by fields. These functions do nothing when they run: their
//! contracts are the laws.

mod runs;
mod senders;
mod sending;

pub use runs::{
    what_a_handler_went_through_says, what_a_run_says, what_a_settled_run_says, what_a_team_says,
};
pub use senders::what_a_run_of_several_says;
pub use sending::what_a_send_says;
