//! The sender of a run: each of its calls claims, fills and publishes.

ghost use Rattle.std.specs.Prelude.{◌≡◌, ◌+◌, ◌++◌, ◌∷◌, ◌-◌, ◌<◌, ◌^◌, [], Err, IfErr, IfOk, OnOk, length, min};
ghost use Rattle.std.specs.Fn.{FnOnceReturnsAtMut};
ghost use Rattle.dr_meaning.specs.Calls.Calling.{ClaimsStretch};
ghost use Rattle.dr_meaning.specs.Calls.Filling.{FillsFrom, FillsOne};
ghost use Rattle.dr_meaning.specs.Calls.Ends.{IsStretch};
ghost use Rattle.dr_meaning.specs.Calls.InPlaceInlets.{Opens};
ghost use Rattle.dr_disruptor.specs.Sending.{ClaimedAtOnce, ClaimedInCuts, ClaimsJust, Fills, FillsOn, FillsPart, IsNth, IsRefused, OnlyCalled, SendsAll, SendsOne, StopsAfter};
ghost use Rattle.dr_plain_senders.specs.Calls.InPlace.{sending_of};
ghost use Rattle.dr_plain_senders.specs.Calls.Sending.{HaltCall};
ghost use Rattle.dr_plain_senders.specs.Calls.Ends.{sender_place};

use dr_meaning::{ClaimFault, Claimed, InPlaceInlet, Refusal};
use dr_plain_senders as several;
use dr_workers::{Bell, Patience, WaitStrategy};
use std::alloc::Global;
use std::marker::Model;
use std::sync::{Arc, Wait};

/// A run's sender, which wakes the handlers' threads. It leaves no claim open.
pub struct LiveSender<R, I: InPlaceInlet> {
    rt: R,
    end: I,
    bell: Arc<Bell, Global>,
    strategy: WaitStrategy,
    // How many events it published, as far as a `u64` counts.
    sent: u64,
}

/// The sender of a closure of [`run_senders`](crate::run_senders).
pub type SeveralSender<R, E> = LiveSender<R, several::Sender<E>>;

impl<R, I: InPlaceInlet> Model for LiveSender<R, I> {
    ghost use Rattle.std.specs.Prelude.{◌≡◌, ◌^◌, ◌-◌, [], length, min};

    ghost Value = { I };

    ghost view = { λ live. live.end };

    ghost invariant = { λ live. ((I.sending live.end).pending ≡ []) × (live.sent ≡ min (length (I.sending live.end).published) (2 ^ 64 - 1)) };
}

// Claims the next `n` sequences, once there is room.
fn claim<R: Wait, I: InPlaceInlet>(
    rt: &R,
    end: &mut I,
    bell: &Bell,
    strategy: WaitStrategy,
    n: u64,
) -> Result<Claimed, Refusal>
    requires closed { (I.sending end.old).pending ≡ [] }
    ensures kept { I.kept end.new ≡ I.kept end.old }
    ensures called { OnlyCalled I.does end.old end.new }
    ensures claims { IfOk result (λ c. ClaimsJust I.does (n ∷ []) end.old end.new) }
    ensures stretch { IfOk result (IsStretch n) }
    ensures opens { IfOk result (λ c. Opens c.lo n (I.sending end.old) (I.sending end.new)) }
    ensures refused { IfErr result (λ r. IsRefused I.kept I.sending I.does n r end.old end.new) }
{
    let mut waits = strategy.begin(rt, bell, n);
    for _ in rt.forever() {
        match end.try_claim(n) {
            Ok(claimed) => return Ok(claimed),
            Err(ClaimFault::Contended) => waits.wait(),
            Err(ClaimFault::Refused(Refusal::NoRoom)) => waits.wait(),
            Err(ClaimFault::Refused(refusal)) => return Err(refusal),
        }
    }
    unreachable!()
}

// Wakes those who wait for what was published, and counts it.
fn counted(bell: &Bell, sent: u64, n: u64) -> u64
    ensures { result ≡ min (sent + n) (2 ^ 64 - 1) }
{
    bell.ring();
    sent.saturating_add(n)
}

// Has each of `n` claimed events filled where it lies, from the sequence `lo` on. The first has the number `first`.
fn fill_each<I: InPlaceInlet, F: Fn(&mut I::Event, u64)>(
    end: &mut I,
    lo: u64,
    n: u64,
    first: u64,
    fill: &F,
)
    requires callable { F.IsAlwaysCallable fill.now }
    requires within { FillsPart (Fills (FillsOne F.Fn fill.now) first) 0 n lo (I.sending end.old) (I.sending end.old) }
    requires fits { (lo + n < 2 ^ 64) × (first + n < 2 ^ 64) }
    ensures kept { I.kept end.new ≡ I.kept end.old }
    ensures called { ClaimsJust I.does [] end.old end.new }
    ensures filled { FillsPart (Fills (FillsOne F.Fn fill.now) first) n n lo (I.sending end.old) (I.sending end.new) }
{
    for k in 0..n {
        end.update_at(lo + k, fill, first + k);
    }
}

// The same by a closure with a state of its own. The first has the number 0.
fn fill_by<I: InPlaceInlet, F: FnMut(&mut I::Event, u64)>(
    end: &mut I,
    lo: u64,
    n: u64,
    fill: &mut F,
)
    requires callable { F.IsAlwaysCallable fill.old }
    requires within { FillsPart (λ events. FillsOn (FillsFrom F.FnMut) fill.old 0 events fill.old) 0 n lo (I.sending end.old) (I.sending end.old) }
    requires fits { lo + n < 2 ^ 64 }
    ensures kept { I.kept end.new ≡ I.kept end.old }
    ensures called { ClaimsJust I.does [] end.old end.new }
    ensures filled { FillsPart (λ events. FillsOn (FillsFrom F.FnMut) fill.old 0 events fill.new) n n lo (I.sending end.old) (I.sending end.new) }
    ensures callable { F.IsAlwaysCallable fill.new }
{
    for k in 0..n {
        end.update_by(lo + k, fill, k);
    }
}

// What waits for nothing: it has no `Wait` to do so by.
impl<R: Copy, I: InPlaceInlet> LiveSender<R, I> {
    pub(crate) fn new(
        rt: R,
        end: I,
        bell: Arc<Bell, Global>,
        strategy: WaitStrategy,
    ) -> LiveSender<R, I>
        requires closed { (I.sending end).pending ≡ [] }
        requires none { (I.sending end).published ≡ [] }
        ensures { result ≡ end }
    {
        LiveSender {
            rt,
            end,
            bell,
            strategy,
            sent: 0,
        }
    }

    /// How many events it published, up to the greatest `u64`.
    pub fn published(&self) -> u64
        ensures { result ≡ min (length (I.sending self.now).published) (2 ^ 64 - 1) }
    {
        self.sent
    }

    /// As [`LiveSender::publish_with`], but it waits for nothing: where there is no room it is refused with `NoRoom`,
    /// and with `Contended` where another sender claimed at the same moment.
    pub fn try_publish_with<F: FnOnce(&mut I::Event) + Drop>(
        &mut self,
        fill: F,
    ) -> Result<(), ClaimFault>
        requires { F.IsAlwaysCallable fill }
        // It is still the same ring's sender, to which nothing was done but calls of an end in place, one after another.
        ensures kept { I.kept self.new ≡ I.kept self.old }
        ensures called { OnlyCalled I.does self.old self.new }
        // What the closure left of what lay there is published behind all that was before.
        ensures sent { OnOk result (SendsOne (λ was now. FnOnceReturnsAtMut F.FnOnce fill was tt now) (I.sending self.old).published (I.sending self.new).published) }
        // A refused claim sends nothing.
        ensures refused { IfErr result (λ fault. I.does self.old (ClaimsStretch 1 (Err fault)) self.new × (I.sending self.new ≡ I.sending self.old)) }
    {
        let Claimed { lo, hi } = self.end.try_claim(1)?;
        self.end.update(lo, fill);
        self.end.publish(lo, hi);
        self.sent = counted(&self.bell, self.sent, 1);
        Ok(())
    }

    // The end without its bell, which is rung where it changes what others look at.
    pub(crate) fn into_end(self) -> (I, Arc<Bell, Global>)
        ensures is { result.0 ≡ self }
        ensures closed { (I.sending result.0).pending ≡ [] }
    {
        let LiveSender {
            rt: _,
            end,
            bell,
            strategy: _,
            sent: _,
        } = self;
        (end, bell)
    }
}

impl<R: Wait + Copy, I: InPlaceInlet> LiveSender<R, I> {
    /// Claims a sequence once there is room, has its event filled where it lies, and publishes it. What `fill` finds
    /// there is what an earlier event left.
    ///
    /// It is refused with `Exhausted` after 2^62 events, or with `Halted`, and changes nothing then.
    pub fn publish_with<F: FnOnce(&mut I::Event) + Drop>(&mut self, fill: F) -> Result<(), Refusal>
        requires { F.IsAlwaysCallable fill }
        // It is still the same ring's sender, to which nothing was done but calls of an end in place, one after another.
        ensures kept { I.kept self.new ≡ I.kept self.old }
        ensures called { OnlyCalled I.does self.old self.new }
        // What the closure left of what lay there is published behind all that was before.
        ensures sent { OnOk result (SendsOne (λ was now. FnOnceReturnsAtMut F.FnOnce fill was tt now) (I.sending self.old).published (I.sending self.new).published) }
        // A refused claim sends nothing, and is not refused for want of room.
        ensures refused { IfErr result (λ r. IsRefused I.kept I.sending I.does 1 r self.old self.new) }
    {
        let Claimed { lo, hi } = claim(&self.rt, &mut self.end, &self.bell, self.strategy, 1)?;
        self.end.update(lo, fill);
        self.end.publish(lo, hi);
        self.sent = counted(&self.bell, self.sent, 1);
        Ok(())
    }

    // One claim of `publish_each`.
    fn publish_part<F: Fn(&mut I::Event, u64)>(
        &mut self,
        part: u64,
        first: u64,
        fill: &F,
    ) -> Result<(), Refusal>
        requires callable { F.IsAlwaysCallable fill.now }
        requires fits { first + part < 2 ^ 64 }
        ensures kept { I.kept self.new ≡ I.kept self.old }
        ensures called { OnlyCalled I.does self.old self.new }
        ensures sent { OnOk result (SendsAll (Fills (FillsOne F.Fn fill.now) first) part (I.sending self.old).published (I.sending self.new).published) }
        ensures claims { OnOk result (ClaimedAtOnce I.kept I.sending (length (I.sending self.old).published) part self.old self.new) }
        ensures accepted { OnOk result (ClaimsJust I.does (part ∷ []) self.old self.new) }
        ensures refused { IfErr result (λ r. IsRefused I.kept I.sending I.does part r self.old self.new) }
    {
        let Claimed { lo, hi } = claim(&self.rt, &mut self.end, &self.bell, self.strategy, part)?;
        fill_each(&mut self.end, lo, part, first, fill);
        self.end.publish(lo, hi);
        self.sent = counted(&self.bell, self.sent, part);
        Ok(())
    }

    /// Sends so many events, in claims of at most `cut` of them, each filled where it lies by `fill`, which is told its
    /// number, from 0 on. It is refused as [`LiveSender::publish_with`] is, and the events of the claims before were sent
    /// then. It is refused with `BadCount`, and sends nothing, where both `count` and `cut` are above the ring's size.
    pub fn publish_each<F: Fn(&mut I::Event, u64) + Drop>(
        &mut self,
        count: u64,
        cut: u64,
        fill: F,
    ) -> Result<(), Refusal>
        requires callable { F.IsAlwaysCallable fill }
        requires cut { 0 < cut }
        // It is still the same ring's sender, to which nothing was done but calls of an end in place, one after another.
        ensures kept { I.kept self.new ≡ I.kept self.old }
        ensures called { OnlyCalled I.does self.old self.new }
        // So many events are published behind all that was before, each as the closure leaves it, by its number.
        ensures sent { OnOk result (SendsAll (Fills (FillsOne F.Fn fill) 0) count (I.sending self.old).published (I.sending self.new).published) }
        // It claimed `cut` of them at once, again and again, and at last those that were left. No other claim was accepted.
        ensures claims { OnOk result (ClaimedInCuts I.kept I.sending I.does cut count self.old self.new) }
        // The first claims were sent whole, and the next one was refused.
        ensures refused { IfErr result (λ r. StopsAfter (FillsOne F.Fn fill) I.kept I.sending I.does count cut r self.old self.new) }
    {
        let mut done = 0;
        while done < count {
            let n = (count - done).min(cut);
            self.publish_part(n, done, &fill)?;
            done += n;
        }
        Ok(())
    }

    /// Claims `n` sequences at once, has each event filled where it lies by `fill`, which has a state of its own and is
    /// told the event's number in the batch, and publishes them together. It is refused as
    /// [`LiveSender::publish_with`] is, and with `BadCount` where `n` is 0 or above the ring's size: then nothing is
    /// filled.
    pub fn publish_batch<F: FnMut(&mut I::Event, u64)>(
        &mut self,
        n: u64,
        fill: &mut F,
    ) -> Result<(), Refusal>
        requires callable { F.IsAlwaysCallable fill.old }
        // It is still the same ring's sender, to which nothing was done but calls of an end in place, one after another.
        ensures kept { I.kept self.new ≡ I.kept self.old }
        ensures called { OnlyCalled I.does self.old self.new }
        // So many events are published behind all that was before, each as the closure leaves it, which goes from state to state.
        ensures sent { OnOk result (SendsAll (λ events. FillsOn (FillsFrom F.FnMut) fill.old 0 events fill.new) n (I.sending self.old).published (I.sending self.new).published) }
        // All of them were claimed at once, by the only claim that was accepted.
        ensures claims { OnOk result (ClaimedAtOnce I.kept I.sending (length (I.sending self.old).published) n self.old self.new) }
        ensures accepted { OnOk result (ClaimsJust I.does (n ∷ []) self.old self.new) }
        // A refused claim sends nothing, and calls the closure for nothing.
        ensures refused { IfErr result (λ r. IsRefused I.kept I.sending I.does n r self.old self.new × (fill.new ≡ fill.old)) }
        // You may call the closure again.
        ensures callable { F.IsAlwaysCallable fill.new }
        // A batch of none is refused.
        ensures some { OnOk result (0 < n) }
    {
        let Claimed { lo, hi } = claim(&self.rt, &mut self.end, &self.bell, self.strategy, n)?;
        fill_by(&mut self.end, lo, n, fill);
        self.end.publish(lo, hi);
        self.sent = counted(&self.bell, self.sent, n);
        Ok(())
    }
}

impl<R: Wait + Copy, E: Copy, I: InPlaceInlet<Event = E>> LiveSender<R, I> {
    /// Sends these events, in claims of at most `cut` of them, each copied to where it lies. It is refused as
    /// [`LiveSender::publish_each`] is.
    pub fn publish_all(&mut self, events: &[E], cut: u64) -> Result<(), Refusal>
        requires cut { 0 < cut }
        // It is still the same ring's sender, to which nothing was done but calls of an end in place, one after another.
        ensures kept { I.kept self.new ≡ I.kept self.old }
        ensures called { OnlyCalled I.does self.old self.new }
        // Just these events are published, behind all that was before.
        ensures sent { OnOk result ((I.sending self.new).published ≡ (I.sending self.old).published ++ events.now) }
        // It claimed `cut` of them at once, again and again, and at last those that were left. No other claim was accepted.
        ensures claims { OnOk result (ClaimedInCuts I.kept I.sending I.does cut (length events.now) self.old self.new) }
        // The first claims were sent whole, and the next one was refused.
        ensures refused { IfErr result (λ r. StopsAfter (IsNth events.now) I.kept I.sending I.does (length events.now) cut r self.old self.new) }
    {
        self.publish_each(
            events.len() as u64,
            cut,
            |event: &mut E, k|
                ensures { k < length events.entry.now → IsNth events.entry.now k event.old event.new }
            {
                if let Some(next) = events.get(k as usize) {
                    *event = *next;
                }
            },
        )
    }
}

impl<R, E> LiveSender<R, several::Sender<E>> {
    /// Halts the ring of a run with several senders: from then on no claim succeeds. What is published still comes to
    /// all handlers. It may be repeated.
    pub fn halt(&mut self)
        // It stores a halt, and nothing else.
        ensures halts { HaltCall self.old self.new }
        // It is still the same ring's sender, and what it sent stays.
        ensures kept { sender_place self.new ≡ sender_place self.old }
        ensures same { sending_of self.new ≡ sending_of self.old }
    {
        self.end.halt();
        self.bell.ring();
    }
}
