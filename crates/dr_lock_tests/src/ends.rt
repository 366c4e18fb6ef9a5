//! Ends of a history behind a lock, which ring or do not.

ghost use Rattle.std.specs.Prelude.{◌≡◌};

use crate::checks::check;
use crate::graphs::Shape;
use crate::histories::{between_two, word};
use crate::ringing::ring_all;
use dr_lock::{End, Exchange, LockedInlet, LockedOutlet, Recorded, Shared};
use dr_meaning::{Claimed, Command, Inlet, Outlet, Polled, Refusal, Trouble};
use dr_seq::Event;
use std::alloc::Global;
use std::marker::Brand;
use std::process::Abort;
use std::sync::Wait;
use std::sync::ledger::Blank;

/// An event goes in and out.
fn pass_between<I: Inlet<Event>, O: Outlet<Event>>(rt: &impl Abort, inlet: &mut I, outlet: &mut O) {
    let mut out = [Event::NONE; 2];
    let unwritten = Err(Trouble::Refused(Refusal::NotWritten));
    check(rt, inlet.try_claim(1), Ok(Claimed { lo: 0, hi: 0 }));
    check(rt, inlet.publish(0, 0), unwritten);
    check(rt, inlet.write(0, word(5)), Ok(()));
    check(rt, outlet.poll_into(&mut out), Ok(Polled::Gating));
    check(rt, inlet.publish(0, 0), Ok(()));
    let batch = Polled::Batch {
        first: 0,
        count: 1,
        end: true,
    };
    check(rt, outlet.poll_into(&mut out), Ok(batch));
    check(rt, out, [word(5), Event::NONE]);
}

/// The event is completed, and no other one comes.
fn complete_one(rt: &impl Abort, outlet: &mut impl Outlet<Event>) {
    let mut out = [Event::NONE; 2];
    let untaken = Err(Trouble::Refused(Refusal::NotTaken));
    check(rt, outlet.poll_into(&mut out), Ok(Polled::Idle));
    check(rt, outlet.complete(2), untaken);
    check(rt, outlet.complete(1), Ok(()));
}

fn check_halted<I: Inlet<Event>, O: Outlet<Event>>(rt: &impl Abort, inlet: &mut I, outlet: &mut O) {
    let halted = Err(Trouble::Refused(Refusal::Halted));
    check(rt, inlet.try_claim(1), halted);
    check(
        rt,
        outlet.poll_into(&mut [Event::NONE]),
        Ok(Polled::Drained),
    );
}

/// An event goes in and out, and the outlet is told of the halt.
fn check_ends<L: Exchange<Event>, R: Wait + Abort>(
    rt: &R,
    shared: &Shared<Event, L>,
    one: End<Event, L>,
    two: End<Event, L>,
    halter: End<Event, L>,
) {
    let mut halter = halter;
    let mut inlet = LockedInlet::new(rt, shared, one, 1);
    let mut outlet = LockedOutlet::new(rt, shared, two, 0);
    pass_between(rt, &mut inlet, &mut outlet);
    complete_one(rt, &mut outlet);
    check(
        rt,
        shared.call(rt, &mut halter, Command::Halt, &mut []).is_ok(),
        true,
    );
    check_halted(rt, &mut inlet, &mut outlet);
    check(rt, inlet.into_end().calls(), 3);
    check(rt, outlet.into_end().calls(), 3);
    check(rt, halter.calls(), 1);
    check(rt, halter.halts(), 1);
}

/// The three ends of a new lock, which ring or do not.
fn by_ends<L: Exchange<Event>, R: Wait + Abort>(
    rt: &R,
    recorded: Recorded<Event>,
    blank: Blank,
    ring: bool,
)
    requires name { blank.name ≡ L.name }
    requires parts { blank.parts ≡ L.parts }
    requires ends { blank.parts ≡ 65 }
    requires begun { recorded.history ≡ L.begun }
{
    let mut shared = Shared::<Event, L>::new(recorded, blank);
    let one = shared.end().expect(rt, "an end");
    let two = shared.end().expect(rt, "an end");
    let halter = shared.end().expect(rt, "an end");
    if ring {
        ring_all(rt, &shared, one, two, halter);
    } else {
        check_ends(rt, &shared, one, two, halter);
    }
}

fn by_ends_of_a_lock(rt: &(impl Wait + Abort), alloc: Global, ring: bool) {
    let recorded = between_two(rt, alloc, Shape::Alone);
    by_ends::<Brand, _>(rt, recorded, Blank::new(65), ring);
}

#[test]
fn an_inlet_and_an_outlet(rt: HostRuntime) {
    by_ends_of_a_lock(&rt, rt.alloc(), false);
}

#[test]
fn each_publication_completion_and_halt_rings(rt: HostRuntime) {
    by_ends_of_a_lock(&rt, rt.alloc(), true);
}
