//! The workers that serve the ends of an exchange, whichever it is.
//!
//! [`produce`] sends a script through a producer's end, and [`consume`] takes a handler through all that its end
//! hands out. Both wait for the other workers by a [`Patience`], and pass a [`Gate`]. [`Ringing`] makes an end
//! wake those who sleep, and [`serve`] is the whole of a handler's worker over one. Begin with `specs/Meaning/Work`:
//! it says what workers do to an end that shows what it sent or received.
#![tactic(auto)]

mod bell;
mod consumer;
mod ended;
pub mod fault;
pub mod gate;
mod parking;
mod passages;
mod patience;
mod producer;
mod retries;
mod ringing;
mod strategy;
mod waiting;

pub use bell::{Bell, Rings};
pub use consumer::{BATCH, consume, consume_with, serve};
pub use ended::{Ended, SENDER, WorkerFault, first_fault};
pub use fault::WorkFault;
pub use gate::{Gate, GateAnswer, OpenGate};
pub use parking::Parking;
pub use patience::{Patience, Spinning};
pub use producer::{Produced, produce, produce_with};
pub use ringing::Ringing;
pub use strategy::{WaitStrategy, Waits};
pub use waiting::Waiting;
