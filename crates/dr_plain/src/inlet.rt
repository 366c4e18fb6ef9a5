//! The sender as an exchange's end, where its events are copied.

ghost use Rattle.std.specs.Prelude.{◌≡◌, ◌+◌, ◌^◌, ◌≤◌, Some, length, take};
ghost use Rattle.dr_meaning.specs.Calls.Calling.{WritesBy};
ghost use Rattle.dr_meaning.specs.Calls.Ends.{IsEndsAnswer, ClaimAnswers, WriteAnswers, PublishAnswers, Claims, Writes, Publishes, WriteAllAnswers, WritesAll};
ghost use Rattle.dr_plain.specs.Calls.Ends.{sender_place, sent_of};
ghost use Rattle.dr_plain.specs.Calls.Sending.{ClaimCall, WriteCall, PublishCall};
ghost use Rattle.dr_plain.specs.Calls.Inlets.{WriteAllCall, sender_does};

use crate::sender::Sender;
use dr_meaning::{Claimed, Inlet, Trouble, Wrote};

impl<T: Copy + Drop> Inlet<T> for Sender<T> {
    ghost use Rattle.dr_plain.specs.Calls.Ends.{SenderPlace};

    ghost Kept = { SenderPlace };

    ghost kept = { sender_place };

    ghost sent = { λ e. Some (sent_of e) };

    ghost does = { sender_does };

    fn try_claim(&mut self, n: u64) -> Result<Claimed, Trouble>
        ensures kept { sender_place self.new ≡ sender_place self.old }
        ensures answer { ClaimAnswers (Some (sent_of self.old)) n result }
        ensures sent { Claims n result (sent_of self.old) (sent_of self.new) }
        // It is the sender's own claim, and memory never runs out.
        ensures own { IsEndsAnswer (ClaimCall self.old n self.new) result }
    {
        Ok(Sender::try_claim(self, n)?)
    }

    fn write(&mut self, s: u64, event: T) -> Result<(), Trouble>
        ensures kept { sender_place self.new ≡ sender_place self.old }
        ensures answer { WriteAnswers (Some (sent_of self.old)) s result }
        ensures sent { Writes s event result (sent_of self.old) (sent_of self.new) }
        // It is the sender's own write, and memory never runs out.
        ensures own { IsEndsAnswer (WriteCall self.old s event self.new) result }
    {
        Ok(Sender::write(self, s, event)?)
    }

    #[tactic(auto, using(dr_runs::proofs::Beginnings::begins_same, dr_runs::proofs::Beginnings::begins_on))]
    fn write_all(&mut self, lo: u64, events: &[T]) -> Wrote
        requires limit { lo + length events.now ≤ 2 ^ 62 }
        ensures kept { sender_place self.new ≡ sender_place self.old }
        ensures answer { WriteAllAnswers (Some (sent_of self.old)) lo (length events.now) result }
        ensures sent { WritesAll lo (take result.count events.now) (sent_of self.old) (sent_of self.new) }
        // It answers each write by what it has, changes the cells of the events written, and stores nothing.
        ensures own { WriteAllCall self.old lo events.now self.new result }
        ensures called { WritesBy self.old self.new sender_does lo events.now result }
    {
        for (k, event) in events.iter().enumerate() {
            match Sender::write(self, lo + k as u64, *event) {
                Ok(()) => (),
                Err(refusal) => {
                    return Wrote {
                        count: k,
                        trouble: Some(Trouble::Refused(refusal)),
                    };
                }
            }
        }
        Wrote {
            count: events.len(),
            trouble: None,
        }
    }

    fn publish(&mut self, lo: u64, hi: u64) -> Result<(), Trouble>
        ensures kept { sender_place self.new ≡ sender_place self.old }
        ensures answer { PublishAnswers (Some (sent_of self.old)) lo hi result }
        ensures sent { Publishes lo hi result (sent_of self.old) (sent_of self.new) }
        // It is the sender's own publication, and memory never runs out.
        ensures own { IsEndsAnswer (PublishCall self.old lo hi self.new) result }
    {
        Ok(Sender::publish(self, lo, hi)?)
    }
}
