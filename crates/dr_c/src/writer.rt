//! The sender of a ring of bytes.

ghost use Rattle.std.specs.Prelude.{◌≡◌, ◌≢◌, ◌+◌, Err, true, length};
ghost use Rattle.dr_meaning.specs.declared.refusal.Refusal.TheVariants.{NotWritten};
ghost use Rattle.dr_plain.specs.Calls.Sending.{ClaimCall, UpdateCall, PublishCall, CloseCall, with_lying};
ghost use Rattle.dr_c.specs.Lengths.{all_have};

use crate::bytes::Bytes;
use dr_meaning::{Claimed, Refusal};
use dr_plain::Sender;

/// A sender, and how many bytes each of its events has. So many lie in each cell.
#[derive(Drop)]
pub struct Writer {
    pub sender: Sender<Bytes>,
    pub bytes: usize,
    ghost fit: { all_have bytes sender.cells ≡ true },
}

impl Writer {
    /// The sender of a ring in whose cells there are so many bytes each.
    pub fn new(sender: Sender<Bytes>, bytes: usize) -> Writer
        requires { all_have bytes sender.cells ≡ true }
        // It has this sender, and so many bytes for each event.
        ensures sender { result.sender ≡ sender }
        ensures bytes { result.bytes ≡ bytes }
    {
        Writer { sender, bytes }
    }

    /// Claims.
    pub fn try_claim(&mut self, n: u64) -> Result<Claimed, Refusal>
        // Each event has as many bytes as before, and the call is the ring's claim.
        ensures bytes { self.new.bytes ≡ self.old.bytes }
        ensures call { ClaimCall self.old.sender n self.new.sender result }
    {
        self.sender.try_claim(n)
    }

    /// Writes the event of a sequence where it lies.
    pub fn write(&mut self, sequence: u64, bytes: &[u8]) -> Result<(), Refusal>
        requires { length bytes.now ≡ self.old.bytes }
        // Each event has as many bytes as before, and that of the sequence has these, by the ring's update.
        ensures bytes { self.new.bytes ≡ self.old.bytes }
        ensures call { UpdateCall (λ was now. now ≡ bytes.now) self.old.sender sequence self.new.sender result }
    {
        self.sender.update(sequence, move |event| event.set(bytes))
    }

    /// Publishes.
    pub fn publish(&mut self, lo: u64, hi: u64) -> Result<(), Refusal>
        // Each event has as many bytes as before, and the call is the ring's publication.
        ensures bytes { self.new.bytes ≡ self.old.bytes }
        ensures call { PublishCall self.old.sender lo hi self.new.sender result }
    {
        self.sender.publish(lo, hi)
    }

    /// Publishes the sequences from `lo` to `hi` with what lies in their cells: none is refused as not written.
    pub fn publish_slots(&mut self, lo: u64, hi: u64) -> Result<(), Refusal>
        // Each event has as many bytes as before; open ones to `hi` are written as they lie, then published.
        ensures bytes { self.new.bytes ≡ self.old.bytes }
        ensures call { PublishCall (with_lying self.old.sender (hi + 1)) lo hi self.new.sender result }
        // Nothing is refused as not written.
        ensures written { result ≢ Err NotWritten }
    {
        self.sender.write_lying(hi);
        self.publish(lo, hi)
    }

    /// Closes the ring.
    pub fn close(&mut self) -> Result<(), Refusal>
        // Each event has as many bytes as before, and the call is the ring's close.
        ensures bytes { self.new.bytes ≡ self.old.bytes }
        ensures call { CloseCall self.old.sender self.new.sender result }
    {
        self.sender.close()
    }
}
