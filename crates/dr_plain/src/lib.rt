//! The ring over plain memory: one sender hands events of any type to a graph of receivers, each end
//! on a thread of its own. An event lies once in memory, and tokens of it travel.
//!
//! Begin with `specs/Meaning`: `Words` says where each word lies, `Records` what each kind of step
//! makes of what its end knows, `Rule` is what holds between any two steps, `Lying` where each token
//! is, and `Steps` lists the kinds.
#![tactic(auto)]

mod body;
mod claiming;
mod events;
mod exchanges;
mod filling;
mod finishing;
mod in_place;
mod inlet;
pub mod laws;
mod left;
mod lending;
mod opening;
mod outlet;
mod over;
mod plan;
mod polling;
mod progress;
mod receiver;
mod reclaiming;
pub mod record;
mod sender;
mod settled;
mod turning;
mod updating;

pub use dr_cells::Values;
pub use dr_meaning::OpenFault;
pub use dr_runs::HandlerCounts;
pub use events::Events;
pub use finishing::settle_all;
pub use laws::Halter;
pub use opening::ring;
pub use plan::Plan;
pub use receiver::Receiver;
pub use sender::Sender;
pub use settled::Settled;
