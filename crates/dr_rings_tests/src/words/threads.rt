//! Threads hand all events over by the traits of ends, each in order, and end by themselves.

use super::open;
use crate::checks::check;
use crate::graphs::Shape;
use crate::threads::{Receive, check_received, start};
use dr_meaning::Polled::{Batch, Drained};
use dr_meaning::{Inlet, MAX_LIMIT, Outlet, Refusal, Trouble};
use dr_ring::{Receiver, Sender};
use dr_seq::Event;
use std::alloc::Global;
use std::sync::Wait;
use std::thread;

/// Sends events in claims of up to `cut`, until there are so many or a claim is refused for another
/// cause than want of room, and tells how many it sent.
fn send_all<I: Inlet<Event>>(inlet: &mut I, count: u64, cut: u64) -> u64 {
    let mut next = 0;
    for _ in 0..u64::MAX {
        if next >= count {
            break;
        }
        let left = count - next;
        match inlet.try_claim(if left < cut { left } else { cut }) {
            Ok(claim) => {
                for s in claim.lo..claim.hi + 1 {
                    let event = Event {
                        first: s.wrapping_mul(7),
                        second: s,
                    };
                    let _ = inlet.write(s, event);
                }
                let _ = inlet.publish(claim.lo, claim.hi);
                next = claim.hi + 1;
            }
            Err(Trouble::Refused(Refusal::NoRoom)) => thread::yield_now(),
            Err(_) => break,
        }
    }
    next
}

/// Sends, and closes.
fn send(mut sender: Sender, count: u64, cut: u64) -> u64 {
    let sent = send_all(&mut sender, count, cut);
    let _ = sender.close();
    sent
}

fn receive<O: Outlet<Event> + Drop>(mut outlet: O) -> Option<u64> {
    let mut next = 0u64;
    let mut out = [Event::NONE; 64];
    for _ in 0..u64::MAX {
        match outlet.poll_into(&mut out) {
            Ok(Batch { first, count, .. }) => {
                if first != next {
                    return None;
                }
                for event in &out[..count as usize] {
                    if event.first != next.wrapping_mul(7) || event.second != next {
                        return None;
                    }
                    next = next.wrapping_add(1);
                }
                let _ = outlet.complete(next);
            }
            Ok(Drained) => return Some(next),
            _ => thread::yield_now(),
        }
    }
    None
}

impl Receive for Receiver {
    fn receive<R: Wait>(self, _rt: &R, _alloc: Global, _who: usize) -> Option<u64> {
        receive(self)
    }
}

#[test]
fn a_million_through_a_diamond(rt: HostRuntime) {
    let ends = open(&rt, rt.alloc(), Shape::Diamond, 1024, MAX_LIMIT);
    let started = start(rt, rt.alloc(), ends.receivers);
    check(&rt, send(ends.sender, 1_000_000, 64), 1_000_000);
    check_received(&rt, started, 3, 1_000_000);
}
