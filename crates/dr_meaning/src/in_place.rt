//! The ends of an exchange whose events are filled and read where they lie, so that they may be of any type.

ghost use Rattle.std.specs.Prelude.{◌≡◌, ◌||◌, ◌<◌, ◌≤◌, ℕ, Bool, [], IfErr, IfOk, length};
ghost use Rattle.std.specs.Fn.{FnOnceReturnsAtMut};
ghost use mathlib.Core.Option.{some};
ghost use lib.ListN.{get_elem?};
ghost use Rattle.dr_meaning.specs.Calls.Calling.{ChangesEvent, ClaimsStretch, CompletesUpTo, InPlaceCall, InPlaceInletCall, Polls, PublishesFilled};
ghost use Rattle.dr_meaning.specs.Calls.Ends.{IsStretch, Received, tells_drained, with_completed};
ghost use Rattle.dr_meaning.specs.Calls.Filling.{FillsFrom, FillsOne};
ghost use Rattle.dr_meaning.specs.Calls.InPlaceInlets.{Changes, IsOpen, IsWhole, Opens, Publishes, Sending};
ghost use Rattle.dr_meaning.specs.Calls.InPlaceOutlets.{SawMore, TakesUpTo};

use crate::claim_fault::ClaimFault;
use crate::command::{Claimed, Polled};

/// A sender's end that fills events where they lie, one stretch after another: each is published before the next is
/// claimed. Only claims are refused. What else an [`Inlet`](crate::Inlet) would refuse, the caller owes here.
pub trait InPlaceInlet {
    /// What lies in the exchange.
    type Event;

    /// What no call changes, as which end it is.
    ghost Kept: { Type 0 } = { Unit {0} };

    ghost kept: { Self → Self.Kept };

    /// What it published so far, and the stretch that it claimed and did not publish.
    ghost sending: { Self → Sending Self.Event };

    /// What a call with its answer tells of the end before and after it, beside what it shows: so that it changes
    /// nothing else.
    ghost does: { Self → InPlaceInletCall → Self → Type 0 };

    /// Claims the next `n` sequences. It waits for nothing.
    fn try_claim(&mut self, n: u64) -> Result<Claimed, ClaimFault>
        requires closed { (sending self.old).pending ≡ [] }
        // It stays the same end.
        ensures kept { kept self.new ≡ kept self.old }
        // An accepted claim gives `n` sequences, which are open then, none of them filled.
        ensures stretch { IfOk result (IsStretch n) }
        ensures opens { IfOk result (λ c. Opens c.lo n (sending self.old) (sending self.new)) }
        // A refusal changes nothing that it shows.
        ensures refused { IfErr result (λ fault. sending self.new ≡ sending self.old) }
        // What its type says of such a call holds too.
        ensures called { does self.old (ClaimsStretch n result) self.new };

    /// Fills the event of a sequence that it claimed and did not publish, where it lies. What `change` finds there
    /// is what an earlier event left, or an earlier change.
    fn update<F: FnOnce(&mut Self::Event) + Drop>(&mut self, s: u64, change: F)
        requires callable { F.IsAlwaysCallable change }
        requires within { IsOpen (sending self.old) s }
        // It stays the same end, and the sequence has what `change` left of what it found there.
        ensures kept { kept self.new ≡ kept self.old }
        ensures changes { Changes (λ was now. FnOnceReturnsAtMut F.FnOnce change was tt now) s (sending self.old) (sending self.new) }
        // What its type says of such a call holds too.
        ensures called { does self.old (ChangesEvent s) self.new };

    /// As `update`, by a closure that is told a number.
    fn update_at<F: Fn(&mut Self::Event, u64)>(&mut self, s: u64, fill: &F, number: u64)
        requires callable { F.IsAlwaysCallable fill.now }
        requires within { IsOpen (sending self.old) s }
        // It stays the same end, and the sequence has what `fill` left of what it found there.
        ensures kept { kept self.new ≡ kept self.old }
        ensures changes { Changes (FillsOne F.Fn fill.now number) s (sending self.old) (sending self.new) }
        // What its type says of such a call holds too.
        ensures called { does self.old (ChangesEvent s) self.new };

    /// As `update_at`, by a closure with a state of its own.
    fn update_by<F: FnMut(&mut Self::Event, u64)>(&mut self, s: u64, fill: &mut F, number: u64)
        requires callable { F.IsAlwaysCallable fill.old }
        requires within { IsOpen (sending self.old) s }
        // It stays the same end, and the sequence has what `fill` left of what it found there.
        ensures kept { kept self.new ≡ kept self.old }
        ensures changes { Changes (λ was now. FillsFrom F.FnMut fill.old number was fill.new now) s (sending self.old) (sending self.new) }
        // What its type says of such a call holds too.
        ensures called { does self.old (ChangesEvent s) self.new }
        // You may call `fill` again.
        ensures callable { F.IsAlwaysCallable fill.new };

    /// Publishes the stretch that it claimed, from its first sequence `lo` to its last `hi`, all of which is filled.
    fn publish(&mut self, lo: u64, hi: u64)
        requires whole { IsWhole lo hi (sending self.old) }
        // It stays the same end; what was open is published in order, after all before, and nothing is open.
        ensures kept { kept self.new ≡ kept self.old }
        ensures publishes { Publishes (sending self.old) (sending self.new) }
        // What its type says of such a call holds too.
        ensures called { does self.old (PublishesFilled lo hi) self.new };
}

/// A handler's end that shows what it took, of a handler that never retires. No call that it allows is refused: what
/// an [`Outlet`](crate::Outlet) would refuse, the caller owes here.
pub trait InPlaceOutlet {
    /// What lies in the exchange.
    type Event;

    /// What no call changes, as which end it is.
    ghost Kept: { Type 0 } = { Unit {0} };

    ghost kept: { Self → Self.Kept };

    /// What it handed out and completed so far.
    ghost received: { Self → Received Self.Event };

    /// Whether it was told that the exchange drained.
    ghost told: { Self → Bool };

    /// Whether it saw that at least so many events are published.
    ghost saw: { Self → ℕ → Type 0 };

    /// How many events in all it found offered when it last took some.
    ghost offered: { Self → ℕ };

    /// What a call with its answer tells of the end before and after it, beside what it shows: nothing, unless the
    /// type says more.
    ghost does: { Self → InPlaceCall → Self → Type 0 } = { λ _ _ _. Unit {0} };

    /// Takes the next events, all that are offered but at most `room`, whose first and number are told. It may read
    /// them until it completes them.
    fn poll(&mut self, room: u64) -> Polled
        requires room { 0 < room }
        // It stays the same end.
        ensures kept { kept self.new ≡ kept self.old }
        // It was told that the exchange drained if it was told so before, or is by this answer.
        ensures told { told self.new ≡ (told self.old || tells_drained result) }
        // It still saw as many events published as it saw before.
        ensures saw { SawMore (saw self.old) (saw self.new) }
        // A batch has the next events: all that were offered, and its end says so, or as many as fit.
        ensures taken { TakesUpTo room (offered self.new) (saw self.new) result (received self.old) (received self.new) }
        // What its type says of such a call holds too.
        ensures called { does self.old (Polls room result) self.new };

    /// An event that it took and did not complete, where it lies: so a handler is shown an event before it is
    /// completed.
    fn event(&self, s: u64) -> &Self::Event
        requires low { (received self.now).completed ≤ s }
        requires high { s < length (received self.now).events }
        ensures { get_elem? (received self.now).events s ≡ some result.now };

    /// Completes all events below `upto`.
    fn complete(&mut self, upto: u64)
        requires low { (received self.old).completed ≤ upto }
        requires high { upto ≤ length (received self.old).events }
        // It stays the same end, and what it was told, saw and found offered stays.
        ensures kept { kept self.new ≡ kept self.old }
        ensures told { told self.new ≡ told self.old }
        ensures saw { SawMore (saw self.old) (saw self.new) }
        ensures offered { offered self.new ≡ offered self.old }
        // All below `upto` is completed, and what it received stays.
        ensures completed { received self.new ≡ with_completed (received self.old) upto }
        // What its type says of such a call holds too.
        ensures called { does self.old (CompletesUpTo upto) self.new };
}
