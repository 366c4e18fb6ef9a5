//! What rounds came to.

use crate::fault::Fault;
use crate::receiving::Received;
use dr_seq::Event;
use std::fmt;

/// What rounds came to.
#[derive(Clone, Copy)]
pub struct Told {
    published: u64,
    received: u64,
    /// How many handlers there were, and how many of them were told that their exchange drained.
    handlers: u64,
    drained: u64,
}

impl Told {
    pub const NONE: Told = Told {
        published: 0,
        received: 0,
        handlers: 0,
        drained: 0,
    };

    /// Both together.
    pub fn with(self, other: Told) -> Told {
        Told {
            published: self.published.wrapping_add(other.published),
            received: self.received.wrapping_add(other.received),
            handlers: self.handlers.wrapping_add(other.handlers),
            drained: self.drained.wrapping_add(other.drained),
        }
    }

    fn with_handler(self, received: &Received) -> Told {
        Told {
            published: self.published,
            received: self.received.wrapping_add(received.events.len() as u64),
            handlers: self.handlers.wrapping_add(1),
            drained: self.drained.wrapping_add(u64::from(received.drained)),
        }
    }

    /// What an exchange came to, if each handler received a beginning of what was published, and all
    /// of it where it drained.
    pub fn of(published: &[Event], received: &[Received]) -> Result<Told, Fault> {
        let mut told = Told {
            published: published.len() as u64,
            ..Told::NONE
        };
        for received in received {
            if !published.starts_with(received.events.as_slice()) {
                return Err(Fault::WrongEvent);
            }
            if received.drained && received.events.len() < published.len() {
                return Err(Fault::WrongCount);
            }
            told = told.with_handler(received);
        }
        Ok(told)
    }
}

impl fmt::Display for Told {
    fn fmt<W: fmt::Write>(&self, f: &mut fmt::Formatter<W>) -> fmt::Result {
        let published = self.published;
        let received = self.received;
        let handlers = self.handlers;
        let drained = self.drained;
        write!(
            f,
            "{published} events published, {received} received by {handlers} handlers, {drained} of them drained"
        )
    }
}
