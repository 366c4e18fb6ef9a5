//! The exchange of events behind a lock, with its history.
//!
//! [`Recorded`] is the core of one thread with its history: its calls, but for those that were refused
//! or found nothing, and the events of their batches. [`Shared`] puts it behind one lock, and each
//! thread calls through an [`End`] of its own, which counts. An [`Exchange`] says with which history it
//! began.
//! [`LockedInlet`] and [`LockedOutlet`] make an end a producer's or a handler's. [`halt`] halts the
//! exchange. [`audit`] compares a history with what its producers were to send. Begin with
//! `specs/Meaning/History`, then `Audit` beside it.
//!
//! Outside `end.rt` nothing but a call changes an end or the history under the lock. So what an end
//! remembers is what was called through it, and what it got.
#![tactic(auto)]

pub mod audit_fault;
pub mod auditing;
pub mod call;
pub mod end;
pub mod entry;
pub mod exchange;
mod halting;
pub mod locked;
pub mod recorded;
pub mod sequences;
pub mod shared;

pub use audit_fault::AuditFault;
pub use auditing::audit;
pub use call::Call;
pub use end::End;
pub use entry::Entry;
pub use exchange::Exchange;
pub use halting::halt;
pub use locked::{LockedInlet, LockedOutlet};
pub use recorded::Recorded;
pub use shared::{MAX_ENDS, Shared, Unfinished, finish};
