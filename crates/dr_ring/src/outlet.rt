//! A receiver as an exchange's end.

ghost use Rattle.std.specs.Prelude.{◌≡◌, ◌||◌, Some};
ghost use Rattle.dr_meaning.specs.Calls.Ends.{IsEndsAnswer, PollAnswers, CompleteAnswers, is_drained, Takes, Completes};
ghost use Rattle.dr_ring.specs.Calls.Ends.{receiver_place, received_of};
ghost use Rattle.dr_ring.specs.Calls.Receiving.{PollCall, CompleteCall};
ghost use Rattle.dr_ring.specs.Calls.Outlets.{receiver_does};

use crate::receiver::Receiver;
use dr_meaning::{Outlet, Polled, Trouble};
use dr_seq::Event;

impl Outlet<Event> for Receiver {
    ghost use Rattle.dr_ring.specs.Calls.Ends.{ReceiverPlace};

    ghost Kept = { ReceiverPlace };

    ghost kept = { receiver_place };

    ghost received = { λ e. Some (received_of e.knows) };

    ghost told = { λ e. e.knows.told };

    ghost does = { receiver_does };

    fn poll_into(&mut self, out: &mut [Event]) -> Result<Polled, Trouble>
        ensures kept { receiver_place self.new ≡ receiver_place self.old }
        ensures answer { PollAnswers (Some (received_of self.old.knows)) out.old out.new result }
        ensures told { self.new.knows.told ≡ (self.old.knows.told || is_drained result) }
        ensures received { Takes out.new result (received_of self.old.knows) (received_of self.new.knows) }
        // It is the receiver's own poll, and memory never runs out.
        ensures own { IsEndsAnswer (PollCall self.old out.old self.new out.new) result }
    {
        Ok(Receiver::poll_into(self, out)?)
    }

    fn complete(&mut self, upto: u64) -> Result<(), Trouble>
        ensures kept { receiver_place self.new ≡ receiver_place self.old }
        ensures answer { CompleteAnswers (Some (received_of self.old.knows)) upto result }
        ensures told { self.new.knows.told ≡ self.old.knows.told }
        ensures received { Completes upto result (received_of self.old.knows) (received_of self.new.knows) }
        // It is the receiver's own completion, and memory never runs out.
        ensures own { IsEndsAnswer (CompleteCall self.old upto self.new) result }
    {
        Ok(Receiver::complete(self, upto)?)
    }
}
