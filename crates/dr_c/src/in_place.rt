//! One of several senders publishes a stretch with what lies in its cells.

ghost use Rattle.std.specs.Prelude.{◌≡◌, ◌≢◌, ◌≤◌, ◌-◌, ℕ, Err};
ghost use Rattle.dr_meaning.specs.declared.refusal.Refusal.TheVariants.{NotWritten};
ghost use Rattle.std.specs.List.{FoldsTo, range_with_len};
ghost use Rattle.dr_plain_senders.specs.Calls.Publishing.{PublishCall};
ghost use Rattle.dr_plain_senders.specs.Calls.Writing.{UpdateCall};
ghost use Rattle.dr_c.specs.Slots.{LeavesOfSeveral, PublishesAsLeft, HasClaimed, WritesOwn};

use dr_meaning::Refusal;
use dr_plain_senders::Sender;
use dr_seq::Event;

// Writes the event of a sequence as it lies.
fn leave(sender: &mut Sender<Event>, sequence: u64) -> Result<(), Refusal>
    ensures { UpdateCall (λ was now. now ≡ was) sender.old sequence sender.new result }
{
    sender.update(sequence, |_event| {})
}

// Writes the events of the sequences from `lo` up to before `upto` as they lie, up to the first that is refused.
fn leave_all(sender: &mut Sender<Event>, lo: u64, upto: u64)
    requires { HasClaimed sender.old }
    ensures left { (count : ℕ) × (count ≤ upto - lo) × FoldsTo LeavesOfSeveral sender.old (range_with_len lo count) sender.new }
    ensures claims { HasClaimed sender.new }
    ensures written { WritesOwn sender.new lo upto }
{
    for sequence in lo..upto {
        if leave(sender, sequence).is_err() {
            return;
        }
    }
}

/// Publishes the sequences from `lo` to `hi` with what lies in their cells: none is refused as not written.
pub fn publish_slots(sender: &mut Sender<Event>, lo: u64, hi: u64) -> Result<(), Refusal>
    requires { HasClaimed sender.old }
    // Sequences from `lo` on, none beyond `hi`, are written as they lie, and then it is the ring's publication.
    ensures call { PublishesAsLeft LeavesOfSeveral (λ m m'. PublishCall m lo hi m' result) lo hi sender.old sender.new }
    // What it has is still what its claims gave it.
    ensures claims { HasClaimed sender.new }
    // Nothing is refused as not written.
    ensures written { result ≢ Err NotWritten }
{
    leave_all(sender, lo, hi.saturating_add(1));
    sender.publish(lo, hi)
}
