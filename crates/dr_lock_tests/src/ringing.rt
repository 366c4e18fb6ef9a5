//! When an end rings its bell.

ghost use Rattle.std.specs.Prelude.{◌≡◌};

use crate::checks::check;
use crate::histories::word;
use dr_lock::{End, Exchange, LockedInlet, LockedOutlet, Shared, halt};
use dr_meaning::{Claimed, Inlet, Outlet, Polled, Trouble, Wrote};
use dr_seq::Event;
use dr_workers::{Ringing, Rings};
use std::marker::Model;
use std::process::Abort;
use std::sync::Wait;
use std::sync::atomic::{AtomicU64, Ordering};

/// How often it was rung.
#[derive(Drop)]
pub struct Strokes {
    count: AtomicU64,
}

impl Rings for &Strokes {
    fn ring(&self) {
        self.count.fetch_add(1, Ordering::SeqCst);
    }
}

pub fn no_strokes() -> Strokes {
    Strokes {
        count: AtomicU64::new(0),
    }
}

pub fn check_strokes(rt: &impl Abort, strokes: &Strokes, wanted: u64) {
    check(rt, strokes.count.load(Ordering::SeqCst), wanted);
}

/// An end that hears how many strokes there were when it was last asked to publish or to complete.
#[derive(Drop)]
pub struct Hearer<'a, T> {
    end: T,
    strokes: &'a Strokes,
    pub heard: Option<u64>,
}

impl<'a, T> Model for Hearer<'a, T> {
    ghost Value = { T };

    ghost view = { λ hearer. hearer.end };
}

pub fn hearing<T>(end: T, strokes: &Strokes) -> Hearer<'_, T>
    ensures { result ≡ end }
{
    Hearer {
        end,
        strokes,
        heard: None,
    }
}

impl<T> Hearer<'_, T> {
    fn hear(&mut self)
        ensures { self.new ≡ self.old }
    {
        self.heard = Some(self.strokes.count.load(Ordering::SeqCst));
    }
}

impl<E: Copy, I: Inlet<E>> Inlet<E> for Hearer<'_, I> {
    ghost Kept = { I.Kept };

    ghost kept = { I.kept };

    ghost sent = { I.sent };

    ghost does = { I.does };

    fn try_claim(&mut self, n: u64) -> Result<Claimed, Trouble> {
        self.end.try_claim(n)
    }

    fn write(&mut self, s: u64, event: E) -> Result<(), Trouble> {
        self.end.write(s, event)
    }

    fn write_all(&mut self, lo: u64, events: &[E]) -> Wrote {
        self.end.write_all(lo, events)
    }

    fn publish(&mut self, lo: u64, hi: u64) -> Result<(), Trouble> {
        self.hear();
        self.end.publish(lo, hi)
    }
}

impl<E, O: Outlet<E>> Outlet<E> for Hearer<'_, O> {
    ghost Kept = { O.Kept };

    ghost kept = { O.kept };

    ghost received = { O.received };

    ghost told = { O.told };

    ghost does = { O.does };

    fn poll_into(&mut self, out: &mut [E]) -> Result<Polled, Trouble> {
        self.end.poll_into(out)
    }

    fn complete(&mut self, upto: u64) -> Result<(), Trouble> {
        self.hear();
        self.end.complete(upto)
    }
}

// Only the publication rings, once it is made.
fn send_one<I: Inlet<Event>>(rt: &impl Abort, inlet: I, strokes: &Strokes) -> I {
    let mut inlet = Ringing::new(hearing(inlet, strokes), strokes);
    check(rt, inlet.try_claim(2).is_ok(), true);
    check(rt, inlet.write(0, word(5)), Ok(()));
    check(rt, inlet.write_all(1, &[word(6)]).count, 1);
    check_strokes(rt, strokes, 0);
    check(rt, inlet.publish(0, 1), Ok(()));
    check(rt, inlet.end().heard, Some(0));
    check_strokes(rt, strokes, 1);
    inlet.into_end().end
}

// Only the completions ring, each once it is made.
fn take_both<O: Outlet<Event>>(rt: &impl Abort, outlet: O, strokes: &Strokes) -> O {
    let mut outlet = Ringing::new(hearing(outlet, strokes), strokes);
    check(rt, outlet.poll_into(&mut [Event::NONE; 2]).is_ok(), true);
    check_strokes(rt, strokes, 1);
    check(rt, outlet.complete(1), Ok(()));
    check(rt, outlet.end().heard, Some(1));
    check_strokes(rt, strokes, 2);
    check(rt, outlet.complete(2), Ok(()));
    check(rt, outlet.end().heard, Some(2));
    check_strokes(rt, strokes, 3);
    outlet.into_end().end
}

/// Two events go in and out, and then the exchange is halted by an end that rings. Each stroke comes after its call.
pub fn ring_all<L: Exchange<Event>, R: Wait + Abort>(
    rt: &R,
    shared: &Shared<Event, L>,
    one: End<Event, L>,
    two: End<Event, L>,
    halter: End<Event, L>,
) {
    let strokes = no_strokes();
    let inlet = send_one(rt, LockedInlet::new(rt, shared, one, 1), &strokes);
    let outlet = take_both(rt, LockedOutlet::new(rt, shared, two, 0), &strokes);
    let mut halter = Ringing::new(halter, &strokes);
    halter.call(|end| {
        check_strokes(rt, &strokes, 3);
        halt(rt, shared, end);
    });
    check_strokes(rt, &strokes, 4);
    check(rt, halter.into_end().halts(), 1);
    check(rt, inlet.into_end().calls(), 4);
    check(rt, outlet.into_end().calls(), 3);
}
