//! The ends of any ring over plain memory, and all ends of any ring.

ghost use Rattle.std.specs.Prelude.{◌≡◌, IfOk};

use crate::calls::Call;
use crate::playing::Came;
use dr_meaning::{Claimed, Polled, Refusal, Reply};
use dr_seq::Event;
use std::process::Abort;

/// A sender, the only one or one of several, that events are moved to.
pub trait Sends<T> {
    /// Which end it is.
    ghost Place: { Type 0 };

    ghost place: { Self → Self.Place };

    /// `NoProducer` is where another sender came before.
    fn claim(&mut self, n: u64) -> Result<Claimed, Refusal>
        ensures { place self.new ≡ place self.old };

    fn write(&mut self, s: u64, event: T) -> Result<(), Refusal>
        ensures { place self.new ≡ place self.old };

    fn update<F: FnOnce(&mut T) + Drop>(&mut self, s: u64, change: F) -> Result<(), Refusal>
        requires { F.IsAlwaysCallable change }
        ensures { IfOk result (λ done. place self.new ≡ place self.old) };

    fn publish(&mut self, lo: u64, hi: u64) -> Result<(), Refusal>
        ensures { place self.new ≡ place self.old };
}

/// A receiver that shows events where they lie.
pub trait Shows<T> {
    /// Which end it is.
    ghost Place: { Type 0 };

    ghost place: { Self → Self.Place };

    fn poll(&mut self, room: u64) -> Result<Polled, Refusal>
        ensures { place self.new ≡ place self.old };

    fn complete(&mut self, upto: u64) -> Result<(), Refusal>
        ensures { place self.new ≡ place self.old };

    fn event(&self, s: u64) -> Option<&T>;
}

/// All ends of a ring, as calls are made of them by number.
pub trait AllEnds {
    /// Whether they can be brought together.
    ghost are_all: { Self → Type 0 };

    /// A call's answer, as the machine would give it. The events of a batch go to the front of `out`.
    fn answer<R: Abort>(&mut self, rt: &R, who: usize, call: Call, out: &mut [Event; 8]) -> Reply
        ensures { are_all self.old → are_all self.new };

    /// Where its events are counted, there are as many as at first.
    fn check_alive<R: Abort>(&self, _rt: &R) {}

    /// Brings them together.
    fn finish(self) -> Came
        requires { are_all self };
}
