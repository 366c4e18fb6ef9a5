//! Ends that wake those who sleep.

ghost use Rattle.std.specs.Prelude.{◌≡◌};
ghost use Rattle.std.specs.Fn.{FnOnceReturnsAtMut};

use crate::bell::Rings;
use dr_meaning::{Claimed, Inlet, Outlet, Polled, Trouble, Wrote};
use std::marker::Model;

/// An end of an exchange that rings a bell after each call by which others may go on: a publication, a
/// completion, and what [`Ringing::call`] is given. It answers as the end does, and in contracts it is that end.
#[derive(Drop)]
pub struct Ringing<T, B> {
    end: T,
    bell: B,
}

impl<T, B> Model for Ringing<T, B> {
    ghost Value = { T };

    ghost view = { λ ringing. ringing.end };
}

impl<T, B: Rings> Ringing<T, B> {
    /// The same end, with a bell.
    pub fn new(end: T, bell: B) -> Ringing<T, B>
        ensures { result ≡ end }
    {
        Ringing { end, bell }
    }

    /// The end that rings.
    pub fn end(&self) -> &T
        ensures { result.now ≡ self.now }
    {
        &self.end
    }

    /// What is rung, for who waits for the same bell.
    pub fn bell(&self) -> &B {
        &self.bell
    }

    /// Calls the end, as to close or to halt the exchange, and rings then.
    pub fn call<A, F: FnOnce(&mut T) -> A>(&mut self, call: F) -> A
        requires callable { F.IsAlwaysCallable call }
        ensures { FnOnceReturnsAtMut F.FnOnce call self.old result self.new }
    {
        let answer = call(&mut self.end);
        self.bell.ring();
        answer
    }

    /// The end without its bell.
    pub fn into_end(self) -> T
        ensures { result ≡ self }
    {
        self.end
    }
}

impl<E: Copy, I: Inlet<E>, B: Rings> Inlet<E> for Ringing<I, B> {
    ghost Kept = { I.Kept };

    ghost kept = { I.kept };

    ghost sent = { I.sent };

    ghost does = { I.does };

    fn try_claim(&mut self, n: u64) -> Result<Claimed, Trouble> {
        self.end.try_claim(n)
    }

    fn write(&mut self, s: u64, event: E) -> Result<(), Trouble> {
        self.end.write(s, event)
    }

    fn write_all(&mut self, lo: u64, events: &[E]) -> Wrote {
        self.end.write_all(lo, events)
    }

    fn publish(&mut self, lo: u64, hi: u64) -> Result<(), Trouble> {
        let answer = self.end.publish(lo, hi);
        self.bell.ring();
        answer
    }
}

impl<E, O: Outlet<E>, B: Rings> Outlet<E> for Ringing<O, B> {
    ghost Kept = { O.Kept };

    ghost kept = { O.kept };

    ghost received = { O.received };

    ghost told = { O.told };

    ghost does = { O.does };

    fn poll_into(&mut self, out: &mut [E]) -> Result<Polled, Trouble> {
        self.end.poll_into(out)
    }

    fn complete(&mut self, upto: u64) -> Result<(), Trouble> {
        let answer = self.end.complete(upto);
        self.bell.ring();
        answer
    }
}
