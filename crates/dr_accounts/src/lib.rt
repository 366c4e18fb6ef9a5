//! The accounts that a replay's handlers keep, and their report.
//!
//! Begin with `specs/Report`: it says what is reported of a list of events, with the balances of
//! `specs/Accounts`, and `specs/ReplayText` what a file has a replay write. Three handlers keep it:
//! [`Journal`], [`Replica`] and [`Business`]. Each gives its part of the report ([`Reporter`]). [`Responder`]
//! answers each event instead, as `specs/Answers` says.
#![tactic(auto)]

mod business;
mod heading;
mod journal;
mod replica;
mod report;
mod reporter;
mod responder;

pub use business::Business;
pub use journal::Journal;
pub use replica::Replica;
pub use report::Report;
pub use reporter::{Reporter, part};
pub use responder::Responder;
