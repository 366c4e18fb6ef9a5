//! A sender as an exchange's end, where its events are copied.

ghost use Rattle.std.specs.Prelude.{◌≡◌, ◌+◌, ◌^◌, ◌≤◌, None, length};
ghost use Rattle.dr_meaning.specs.Calls.Calling.{WritesBy};
ghost use Rattle.dr_meaning.specs.Calls.Ends.{IsEndsAnswer, ClaimAnswers, WriteAnswers, WriteAllAnswers, PublishAnswers};
ghost use Rattle.dr_plain_senders.specs.Calls.Ends.{sender_place};
ghost use Rattle.dr_plain_senders.specs.Calls.Writing.{WriteCall};
ghost use Rattle.dr_plain_senders.specs.Calls.Publishing.{PublishCall};
ghost use Rattle.dr_plain_senders.specs.Calls.Inlets.{ClaimsAsEnd, WriteAllCall, sender_does};

use crate::sender::Sender;
use dr_meaning::{ClaimFault, Claimed, Inlet, Refusal, Trouble, Wrote};

/// It is not the only producer, so it shows nothing of what it sent. `NoRoom` stands for
/// [`ClaimFault::Contended`] too: where another sender claimed meanwhile, nothing is known of the
/// room, and whoever tries again where there is none tries that again.
impl<T: Copy + Drop> Inlet<T> for Sender<T> {
    ghost use Rattle.dr_plain_senders.specs.Calls.Ends.{EndPlace};

    ghost Kept = { EndPlace T };

    ghost kept = { sender_place };

    ghost does = { sender_does };

    fn try_claim(&mut self, n: u64) -> Result<Claimed, Trouble>
        ensures kept { sender_place self.new ≡ sender_place self.old }
        ensures answer { ClaimAnswers {E = T} None n result }
        // It is the sender's own claim, with `NoRoom` for `Contended` too, and memory never runs out.
        ensures own { ClaimsAsEnd self.old n self.new result }
    {
        match Sender::try_claim(self, n) {
            Ok(claimed) => Ok(claimed),
            Err(ClaimFault::Refused(refusal)) => Err(Trouble::Refused(refusal)),
            Err(ClaimFault::Contended) => Err(Trouble::Refused(Refusal::NoRoom)),
        }
    }

    fn write(&mut self, s: u64, event: T) -> Result<(), Trouble>
        ensures kept { sender_place self.new ≡ sender_place self.old }
        ensures answer { WriteAnswers {E = T} None s result }
        // It is the sender's own write, and memory never runs out.
        ensures own { IsEndsAnswer (WriteCall self.old s event self.new) result }
    {
        Ok(Sender::write(self, s, event)?)
    }

    fn write_all(&mut self, lo: u64, events: &[T]) -> Wrote
        requires limit { lo + length events.now ≤ 2 ^ 62 }
        ensures kept { sender_place self.new ≡ sender_place self.old }
        ensures answer { WriteAllAnswers {E = T} None lo (length events.now) result }
        // It is one write after another, up to the first that is refused.
        ensures own { WriteAllCall self.old lo events.now self.new result.count result.trouble }
        ensures called { WritesBy self.old self.new sender_does lo events.now result }
    {
        for (k, event) in events.iter().enumerate() {
            match Inlet::write(self, lo + k as u64, *event) {
                Ok(()) => (),
                Err(trouble) => {
                    return Wrote {
                        count: k,
                        trouble: Some(trouble),
                    };
                }
            }
        }
        Wrote {
            count: events.len(),
            trouble: None,
        }
    }

    fn publish(&mut self, lo: u64, hi: u64) -> Result<(), Trouble>
        ensures kept { sender_place self.new ≡ sender_place self.old }
        ensures answer { PublishAnswers {E = T} None lo hi result }
        // It is the sender's own publication, and memory never runs out.
        ensures own { IsEndsAnswer (PublishCall self.old lo hi self.new) result }
    {
        Ok(Sender::publish(self, lo, hi)?)
    }
}
