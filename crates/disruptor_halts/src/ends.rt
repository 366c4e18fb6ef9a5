//! What the ends of any exchange do in a round.

use crate::fault::Fault;
use crate::random::Random;
use crate::receiving::Receiving;
use crate::sending::Sending;
use crate::signs::Signs;
use crate::stretch::Stretch;

/// An end that sends.
pub trait Producing: Drop + Send {
    /// Sends for a stretch of turns.
    fn send(&mut self, sending: &mut Sending) -> Result<Stretch, Fault>;

    /// Halts the exchange now and then, where the end may do so.
    fn may_halt(&mut self, _random: &mut Random) {}

    /// Ends the sending. All that was claimed is published.
    fn end(&mut self) -> Result<(), Fault>;
}

/// An end that receives.
pub trait Taking: Drop + Send {
    /// Receives for a stretch of turns.
    fn receive(&mut self, receiving: &mut Receiving, signs: &Signs) -> Result<Stretch, Fault>;

    /// Halts the exchange now and then, where the end may do so.
    fn may_halt(&mut self, _random: &mut Random) {}

    /// Takes no more from some time on, if it may leave.
    fn may_leave(&mut self, random: &mut Random, signs: &Signs) -> Result<Stretch, Fault>;
}

/// An end that halts the exchange.
pub trait Halting: Drop + Send {
    fn halt(&mut self);
}
