//! A durable journal: batches of records in a file, each of them on the disk before it is
//! acknowledged.
//!
//! Begin with `specs/Meaning/Format`: it says which records the bytes of a file stand for, and
//! `specs/Meaning/Disk` what a crash may leave of a file. A crash at any moment of any call leaves the
//! records from before, with the whole batch or without it, and once a batch is acknowledged, each
//! crash leaves it ([`Journal::append`]). Opening a file may crash too ([`recover`], [`open`]).
//! [`Journaling`] is a handler that journals events of any type that is [`AsRecord`].
//!
//! Trusted, for a real file ([`FileDevice`]): that each of its methods makes the call of the system
//! that it notes; that after a crash the next opening finds one of the contents that the premise of
//! [`Device`] allows; and that nobody writes the file but the journal, which locks it against others.
#![tactic(auto)]

mod coding;
mod device;
mod event;
mod fault;
mod file;
mod handler;
mod journal;
mod lawful;
mod memory;
mod opening;
mod record;
mod recovery;
mod repair;
mod scan;

pub use device::Device;
pub use fault::{JournalFault, OpenFault};
pub use file::FileDevice;
pub use handler::Journaling;
pub use journal::Journal;
pub use lawful::{batches_come_back, what_was_shown_is_kept};
pub use memory::MemoryDevice;
pub use opening::{Opening, open};
pub use record::{AsRecord, RecordFault, read_events};
pub use recovery::{Recovery, recover};
