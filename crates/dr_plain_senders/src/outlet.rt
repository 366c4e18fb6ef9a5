//! A receiver as who does not know which exchange it is of. It copies what it took.

ghost use Rattle.std.specs.Prelude.{◌≡◌, ◌+◌, ◌<◌, ◌≤◌, ◌^◌, ◌||◌, take, drop, length, Some};
ghost use Rattle.dr_meaning.specs.Calls.Ends.{IsEndsAnswer, PollAnswers, CompleteAnswers, is_drained, Takes, Completes};
ghost use Rattle.dr_lent.specs.Events.{events_of};
ghost use Rattle.dr_plain_senders.specs.Calls.Ends.{receiver_place, received_of};
ghost use Rattle.dr_plain_senders.specs.Calls.Receiving.{CompleteCall};
ghost use Rattle.dr_plain_senders.specs.Calls.Outlets.{PollIntoCall, receiver_does};

use crate::receiver::Receiver;
use dr_meaning::{Outlet, Polled, Trouble};

impl<T: Copy> Receiver<T> {
    // Copies some events that it has in hand.
    fn copy_events(&self, first: u64, out: &mut [T])
        requires fits { length self.now.knows.received < 2 ^ 64 }
        requires held { (self.now.knows.completed ≤ first) × (first + length out.old ≤ length self.now.knows.received) }
        ensures { out.new ≡ take (length out.old) (drop first (events_of self.now.knows.received)) }
    {
        let mut sequence = first;
        for event in out.iter_mut() {
            *event = *self.station.read(sequence, &self.parts);
            sequence += 1;
        }
    }
}

impl<T: Copy> Outlet<T> for Receiver<T> {
    ghost use Rattle.dr_plain_senders.specs.Calls.Ends.{EndPlace};

    ghost Kept = { EndPlace T };

    ghost kept = { receiver_place };

    ghost received = { λ e. Some (received_of e.knows) };

    ghost told = { λ e. e.knows.told };

    ghost does = { receiver_does };

    fn poll_into(&mut self, out: &mut [T]) -> Result<Polled, Trouble>
        ensures kept { receiver_place self.new ≡ receiver_place self.old }
        ensures answer { PollAnswers (Some (received_of self.old.knows)) out.old out.new result }
        ensures told { self.new.knows.told ≡ (self.old.knows.told || is_drained result) }
        ensures received { Takes out.new result (received_of self.old.knows) (received_of self.new.knows) }
        // It is the receiver's own poll, copied to the front of the buffer, and memory never runs out.
        ensures own { IsEndsAnswer (PollIntoCall self.old out.old self.new out.new) result }
    {
        let _taken = &self.taken;
        let polled = self.poll(out.len() as u64)?;
        if let Polled::Batch { first, count, .. } = polled {
            let (front, _) = out.split_at_mut(count as usize);
            self.copy_events(first, front);
        }
        Ok(polled)
    }

    fn complete(&mut self, upto: u64) -> Result<(), Trouble>
        ensures kept { receiver_place self.new ≡ receiver_place self.old }
        ensures answer { CompleteAnswers (Some (received_of self.old.knows)) upto result }
        ensures told { self.new.knows.told ≡ self.old.knows.told }
        ensures received { Completes upto result (received_of self.old.knows) (received_of self.new.knows) }
        // It is the receiver's own completion, and memory never runs out.
        ensures own { IsEndsAnswer (CompleteCall self.old upto self.new) result }
    {
        Ok(Receiver::complete(self, upto)?)
    }
}
