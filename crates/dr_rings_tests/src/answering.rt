//! What an end of any ring answers to a call.

ghost use Rattle.std.specs.Prelude.{◌≡◌};

use crate::calls::{Call, NEVER, claimed, done, polled};
use crate::checks::check_at;
use crate::counted::{Counted, event};
use crate::ends::{Sends, Shows};
use dr_meaning::{Inlet, Outlet, Refusal, Reply, Trouble};
use dr_seq::Event;
use std::process::Abort;
use std::sync::Arc;

/// A ring never answers that memory ran out.
fn refused<T>(answer: Result<T, Trouble>) -> Result<T, Refusal> {
    match answer {
        Ok(value) => Ok(value),
        Err(Trouble::Refused(refusal)) => Err(refusal),
        Err(Trouble::Memory) => Err(NEVER),
    }
}

/// Of a sender that events are copied to.
pub fn answer_of_inlet<I: Inlet<Event>>(inlet: &mut I, call: Call) -> Reply
    ensures { I.kept inlet.new ≡ I.kept inlet.old }
{
    match call {
        Call::Claim(n) => claimed(refused(inlet.try_claim(n))),
        Call::Write(s, event) => done(refused(inlet.write(s, event)), Reply::Written),
        Call::Publish(lo, hi) => done(refused(inlet.publish(lo, hi)), Reply::Published),
        _ => Reply::Refused(NEVER),
    }
}

/// Of a receiver that copies events.
pub fn answer_of_outlet<O: Outlet<Event>>(
    rt: &impl Abort,
    outlet: &mut O,
    call: Call,
    out: &mut [Event; 8],
) -> Reply
    ensures { O.kept outlet.new ≡ O.kept outlet.old }
{
    match call {
        Call::Poll(room) => {
            assert!(rt; room <= 8);
            let (front, _) = out.split_at_mut(room as usize);
            polled(refused(outlet.poll_into(front)))
        }
        Call::Complete(upto) => done(refused(outlet.complete(upto)), Reply::Completed),
        _ => Reply::Refused(NEVER),
    }
}

// A thousand more than lay there.
fn change<S: Sends<Counted>>(rt: &impl Abort, sender: &mut S, s: u64) -> Reply
    ensures { S.place sender.new ≡ S.place sender.old }
{
    match sender.update(s, |event| event.number = event.number.wrapping_add(1000)) {
        Ok(()) => Reply::Written,
        Err(_) => panic!(rt; "{s} is not open"),
    }
}

/// Of a sender that events are moved to.
pub fn answer_of_sender<S: Sends<Counted>>(
    rt: &impl Abort,
    alive: &Arc<u64>,
    sender: &mut S,
    call: Call,
) -> Reply
    ensures { S.place sender.new ≡ S.place sender.old }
{
    match call {
        Call::Claim(n) => claimed(sender.claim(n)),
        Call::Write(s, words) => {
            let written = event(rt, alive, words.first);
            done(sender.write(s, written), Reply::Written)
        }
        Call::Change(s) => change(rt, sender, s),
        Call::Publish(lo, hi) => done(sender.publish(lo, hi), Reply::Published),
        _ => Reply::Refused(NEVER),
    }
}

/// The number of an event in a receiver's hand.
fn shown(receiver: &impl Shows<Counted>, s: u64) -> Event {
    match receiver.event(s) {
        Some(event) => Event {
            first: event.number,
            second: 0,
        },
        None => Event::NONE,
    }
}

/// The events of a batch lie where they are shown, and the last of them is the last that its receiver took.
fn show(rt: &impl Abort, receiver: &impl Shows<Counted>, given: Reply, out: &mut [Event; 8]) {
    if let Reply::Batch { first, count, .. } = given {
        assert!(rt; count <= 8);
        let (front, _) = out.split_at_mut(count as usize);
        let mut next = first;
        for event in front.iter_mut() {
            *event = shown(receiver, next);
            next = next.wrapping_add(1);
        }
        check_at(rt, receiver.event(next).is_none(), true, next);
    }
}

/// Of a receiver that shows events where they lie.
pub fn answer_of_receiver<S: Shows<Counted>>(
    rt: &impl Abort,
    receiver: &mut S,
    call: Call,
    out: &mut [Event; 8],
) -> Reply
    ensures { S.place receiver.new ≡ S.place receiver.old }
{
    match call {
        Call::Poll(room) => {
            let given = polled(receiver.poll(room));
            show(rt, receiver, given, out);
            given
        }
        Call::Complete(upto) => done(receiver.complete(upto), Reply::Completed),
        _ => Reply::Refused(NEVER),
    }
}
