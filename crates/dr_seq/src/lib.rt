//! What a sequence number means to a ring of slots. [`Size`] is how many slots a ring has and
//! where a sequence lies in it, [`Slots`] holds an event a slot, of any type that may be copied,
//! [`Rounds`] knows which sequences are marked, and [`GateCache`] remembers the least count of the
//! handlers that a claim waits for. [`Event`] is the event of two words that the tools send, and
//! [`Same`] tells whether two events are the same.
#![tactic(auto)]

pub mod event;
pub mod gate_cache;
pub mod rounds;
pub mod same;
pub mod size;
pub mod slots;

pub use event::Event;
pub use gate_cache::GateCache;
pub use rounds::Rounds;
pub use same::{Same, are_same};
pub use size::{Size, SizeFault};
pub use slots::Slots;
