//! Events that own memory go from threads to threads, one of which leaves the ring early: it holds the senders up until they
//! are told that the ring halted. No event is lost, and none is there twice.

use crate::checks::check;
use crate::counted::{Counted, event};
use crate::ends::{Sends, Shows};
use crate::threads::{Started, check_received};
use dr_meaning::Polled::{Batch, Drained};
use dr_meaning::{Claimed, Refusal};
use std::process::Abort;
use std::sync::Arc;
use std::thread::{self, Threads};

/// How many slots the rings have.
pub const SLOTS: u64 = 8;

/// Which handler of a diamond leaves: the one that follows the others, since these can go on without it.
const LEAVES: usize = 2;

/// How many events it completes before it leaves, or a few more.
const ENOUGH: u64 = 1_000;

// An event is moved into the cell of its sequence, or put in place of what lies there.
fn write(rt: &impl Abort, sender: &mut impl Sends<Counted>, alive: &Arc<u64>, s: u64) {
    let one = event(rt, alive, s);
    let written = if s % 2 == 0 {
        sender.write(s, one)
    } else {
        sender.update(s, move |lying| *lying = one)
    };
    check(rt, written, Ok(()));
}

// Writes the events of what a sender claimed, and publishes them.
fn send_claimed(
    rt: &impl Abort,
    sender: &mut impl Sends<Counted>,
    alive: &Arc<u64>,
    claim: Claimed,
) {
    for s in claim.lo..claim.hi.wrapping_add(1) {
        write(rt, sender, alive, s);
    }
    check(rt, sender.publish(claim.lo, claim.hi), Ok(()));
}

/// Sends events, each with its sequence for a number, until it is told that the ring halted, and tells how many it sent.
pub fn send(rt: &impl Abort, sender: &mut impl Sends<Counted>, alive: &Arc<u64>) -> u64 {
    let mut sent = 0u64;
    for _ in 0..u64::MAX {
        match sender.claim(3) {
            Ok(claim) => {
                send_claimed(rt, sender, alive, claim);
                sent = sent.wrapping_add(3);
            }
            Err(Refusal::NoProducer | Refusal::NoRoom) => thread::yield_now(),
            Err(_) => break,
        }
    }
    sent
}

// Whether a receiver has the events of the sequences from `lo` up to `hi` in hand.
fn has_in_hand(receiver: &impl Shows<Counted>, lo: u64, hi: u64) -> bool {
    for s in lo..hi {
        match receiver.event(s) {
            Some(event) if event.number == s => (),
            _ => return false,
        }
    }
    true
}

// Receives until it has completed so many events or is told that the ring drained, and tells how many came, or nothing where
// one came out of order.
fn receive_up_to(receiver: &mut impl Shows<Counted>, enough: u64) -> Option<u64> {
    let mut next = 0u64;
    for _ in 0..u64::MAX {
        if next >= enough {
            return Some(next);
        }
        match receiver.poll(5) {
            Ok(Batch { first, count, .. }) => {
                let upto = next.wrapping_add(count);
                if first != next || !has_in_hand(receiver, first, upto) {
                    return None;
                }
                next = upto;
                let _ = receiver.complete(next);
            }
            Ok(Drained) => return Some(next),
            _ => thread::yield_now(),
        }
    }
    None
}

/// Receives as the handler of this number in a diamond. The one that leaves may have events in hand then.
pub fn receive(receiver: &mut impl Shows<Counted>, who: usize) -> Option<u64> {
    if who != LEAVES {
        return receive_up_to(receiver, u64::MAX);
    }
    let completed = receive_up_to(receiver, ENOUGH);
    let _ = receiver.poll(5);
    completed
}

/// Waits until the receiver that leaves is gone, and tells how many events it completed, each in order.
pub fn wait_for_leaving(rt: &(impl Threads + Abort), started: &mut Started) -> u64 {
    let worker = started.pop().expect(rt, "a thread");
    let completed = worker.join(rt).expect(rt, "events in order");
    check(rt, completed >= ENOUGH, true);
    completed
}

/// The senders were held up: of what the receiver that left did not complete they sent as many events as the ring has slots at
/// most. The other receivers received all that was sent, and of the events none is left.
pub fn check_ended(
    rt: &(impl Threads + Abort),
    started: Started,
    completed: u64,
    sent: u64,
    alive: &Arc<u64>,
) {
    check(rt, sent.wrapping_sub(completed) <= SLOTS, true);
    check_received(rt, started, LEAVES, sent);
    check(rt, Arc::strong_count(alive), 1);
}
