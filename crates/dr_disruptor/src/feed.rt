//! What sends the events of a run, by whichever sender.

ghost use Rattle.std.specs.Prelude.{◌≡◌, List};

use crate::sender::LiveSender;
use dr_meaning::InPlaceInlet;
use std::sync::Wait;

/// What sends the events of a run, by whichever sender: what a closure is that takes any of them.
pub trait Feed<E> {
    /// What it answers.
    type Answer;

    /// What it answers, and what it makes of what was published.
    ghost gives: { Self → Self.Answer → List E → List E → Type 0 };

    /// Sends the events. It does not put another ring's sender in the place of the one that it is given.
    fn feed<R: Wait + Copy, I: InPlaceInlet<Event = E>>(
        self,
        sender: &mut LiveSender<R, I>,
    ) -> Self::Answer
        // It is the same ring's sender still, and what it sent and answers is as the feed says.
        ensures kept { I.kept sender.new ≡ I.kept sender.old }
        ensures gives { gives self result (I.sending sender.old).published (I.sending sender.new).published };
}
