//! The sender as an exchange's end.

ghost use Rattle.std.specs.Prelude.{◌≡◌, ◌+◌, ◌^◌, ◌≤◌, Some, length, take};
ghost use Rattle.dr_meaning.specs.Calls.Calling.{WritesBy};
ghost use Rattle.dr_meaning.specs.Calls.Ends.{IsEndsAnswer, ClaimAnswers, WriteAnswers, PublishAnswers, Claims, Writes, Publishes, WriteAllAnswers, WritesAll};
ghost use Rattle.dr_ring.specs.Calls.Ends.{sender_place};
ghost use Rattle.dr_ring.specs.Calls.Sending.{ClaimCall, WriteCall, PublishCall};
ghost use Rattle.dr_ring.specs.Calls.Inlets.{WriteAllCall, sender_does};

use crate::sender::Sender;
use dr_meaning::{Claimed, Inlet, Trouble, Wrote};
use dr_seq::Event;

impl Inlet<Event> for Sender {
    ghost use Rattle.dr_ring.specs.Calls.Ends.{SenderPlace};

    ghost Kept = { SenderPlace };

    ghost kept = { sender_place };

    ghost sent = { λ e. Some e.knows.sent };

    ghost does = { sender_does };

    fn try_claim(&mut self, n: u64) -> Result<Claimed, Trouble>
        ensures kept { sender_place self.new ≡ sender_place self.old }
        ensures answer { ClaimAnswers (Some self.old.knows.sent) n result }
        ensures sent { Claims n result self.old.knows.sent self.new.knows.sent }
        // It is the sender's own claim, and memory never runs out.
        ensures own { IsEndsAnswer (ClaimCall self.old n self.new) result }
    {
        Ok(Sender::try_claim(self, n)?)
    }

    fn write(&mut self, s: u64, event: Event) -> Result<(), Trouble>
        ensures kept { sender_place self.new ≡ sender_place self.old }
        ensures answer { WriteAnswers (Some self.old.knows.sent) s result }
        ensures sent { Writes s event result self.old.knows.sent self.new.knows.sent }
        // It is the sender's own write, and memory never runs out.
        ensures own { IsEndsAnswer (WriteCall self.old s event self.new) result }
    {
        Ok(Sender::write(self, s, event)?)
    }

    #[tactic(auto, using(dr_runs::proofs::Beginnings::begins_same, dr_runs::proofs::Beginnings::begins_on))]
    fn write_all(&mut self, lo: u64, events: &[Event]) -> Wrote
        requires limit { lo + length events.now ≤ 2 ^ 62 }
        ensures kept { sender_place self.new ≡ sender_place self.old }
        ensures answer { WriteAllAnswers (Some self.old.knows.sent) lo (length events.now) result }
        ensures sent { WritesAll lo (take result.count events.now) self.old.knows.sent self.new.knows.sent }
        // It answers each write by what it sent, stores both words of each event written, and nothing else.
        ensures own { WriteAllCall self.old lo events.now self.new result }
        ensures called { WritesBy self.old self.new sender_does lo events.now result }
    {
        for (k, event) in events.iter().enumerate() {
            match Sender::write(self, lo + k as u64, *event) {
                Ok(()) => (),
                Err(refusal) => {
                    return Wrote {
                        count: k,
                        trouble: Some(Trouble::Refused(refusal)),
                    };
                }
            }
        }
        Wrote {
            count: events.len(),
            trouble: None,
        }
    }

    fn publish(&mut self, lo: u64, hi: u64) -> Result<(), Trouble>
        ensures kept { sender_place self.new ≡ sender_place self.old }
        ensures answer { PublishAnswers (Some self.old.knows.sent) lo hi result }
        ensures sent { Publishes lo hi result self.old.knows.sent self.new.knows.sent }
        // It is the sender's own publication, and memory never runs out.
        ensures own { IsEndsAnswer (PublishCall self.old lo hi self.new) result }
    {
        Ok(Sender::publish(self, lo, hi)?)
    }
}
