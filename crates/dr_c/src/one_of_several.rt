//! One of several senders.

ghost use Rattle.std.specs.Prelude.{◌≡◌, ◌≢◌, Err};
ghost use Rattle.dr_meaning.specs.declared.refusal.Refusal.TheVariants.{NotWritten};
ghost use Rattle.dr_plain_senders.specs.Calls.Publishing.{PublishCall};
ghost use Rattle.dr_plain_senders.specs.Calls.Sending.{SenderClaimCall};
ghost use Rattle.dr_plain_senders.specs.Calls.Writing.{WriteCall};
ghost use Rattle.dr_c.specs.Slots.{HasClaimed, LeavesOfSeveral, PublishesAsLeft};

use crate::in_place;
use dr_meaning::{ClaimFault, Claimed, Refusal};
use dr_plain_senders::Sender;
use dr_seq::Event;

/// One of several senders. What it has is what its claims gave it: each sequence once.
#[derive(Drop)]
pub struct OneOfSeveral {
    pub sender: Sender<Event>,
    ghost claims: { HasClaimed sender },
}

impl OneOfSeveral {
    /// A sender that has what claims gave it, as one that has nothing yet.
    pub fn new(sender: Sender<Event>) -> OneOfSeveral
        requires { HasClaimed sender }
        // It is this sender.
        ensures { result.sender ≡ sender }
    {
        OneOfSeveral { sender }
    }

    /// Claims.
    pub fn try_claim(&mut self, n: u64) -> Result<Claimed, ClaimFault>
        // The call is the ring's claim.
        ensures { SenderClaimCall self.old.sender n self.new.sender result }
    {
        self.sender.try_claim(n)
    }

    /// Writes the event of a sequence.
    pub fn write(&mut self, sequence: u64, event: Event) -> Result<(), Refusal>
        // The call is the ring's write.
        ensures { WriteCall self.old.sender sequence event self.new.sender result }
    {
        self.sender.write(sequence, event)
    }

    /// Publishes.
    pub fn publish(&mut self, lo: u64, hi: u64) -> Result<(), Refusal>
        // The call is the ring's publication.
        ensures { PublishCall self.old.sender lo hi self.new.sender result }
    {
        self.sender.publish(lo, hi)
    }

    /// Publishes the sequences from `lo` to `hi` with what lies in their cells: none is refused as not written.
    pub fn publish_slots(&mut self, lo: u64, hi: u64) -> Result<(), Refusal>
        // Sequences from `lo` on, none beyond `hi`, are written as they lie, and then it is the ring's publication.
        ensures call { PublishesAsLeft LeavesOfSeveral (λ m m'. PublishCall m lo hi m' result) lo hi self.old.sender self.new.sender }
        // Nothing is refused as not written.
        ensures written { result ≢ Err NotWritten }
    {
        in_place::publish_slots(&mut self.sender, lo, hi)
    }
}
