//! How far a ring came.

ghost use Rattle.std.specs.Prelude.{◌≡◌, ◌<◌, length};
ghost use Rattle.dr_runs.specs.Gathering.{counts_at};

use crate::laws::Halter;
use crate::receiver::Receiver;
use crate::sender::Sender;
use dr_runs::HandlerCounts;
use std::snapshot::Snapshot;

/// How far a ring came, and, in contracts alone, which ends came together.
#[derive(Drop)]
pub struct Settled<T> {
    pub(crate) claimed: u64,
    pub(crate) published: u64,
    pub(crate) handlers: Vec<HandlerCounts>,
    pub(crate) sender: Snapshot<Sender<T>>,
    pub(crate) receivers: Snapshot<Vec<Receiver<T>>>,
    pub(crate) halter: Snapshot<Halter<T>>,
}

impl<T> Settled<T> {
    /// How many sequences were claimed.
    pub fn claimed(&self) -> u64
        ensures { result ≡ self.now.claimed }
    {
        self.claimed
    }

    /// How many events were published.
    pub fn published(&self) -> u64
        ensures { result ≡ self.now.published }
    {
        self.published
    }

    /// How many handlers there are.
    pub fn handlers(&self) -> usize
        ensures { result ≡ length self.now.handlers.items }
    {
        self.handlers.len()
    }

    /// How many events a handler took.
    pub fn taken(&self, handler: usize) -> u64
        requires { handler < length self.now.handlers.items }
        ensures { result ≡ (counts_at self.now.handlers.items handler).taken }
    {
        self.handlers[handler].taken
    }

    /// How many events a handler completed.
    pub fn completed(&self, handler: usize) -> u64
        requires { handler < length self.now.handlers.items }
        ensures { result ≡ (counts_at self.now.handlers.items handler).completed }
    {
        self.handlers[handler].completed
    }
}
