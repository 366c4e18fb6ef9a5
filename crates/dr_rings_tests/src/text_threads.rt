//! Texts that threads hand over, each in order.

use crate::ends::{Sends, Shows};
use crate::texts::ShowsTexts;
use dr_meaning::Polled::{Batch, Drained};
use dr_meaning::{Claimed, Refusal};
use std::alloc::Global;
use std::thread;

// Writes the texts of what a sender claimed, and publishes them.
fn send_claimed(sender: &mut impl Sends<String>, alloc: Global, claim: Claimed) {
    for s in claim.lo..claim.hi.wrapping_add(1) {
        if let Ok(text) = format!(in alloc; "event {s}") {
            let _ = sender.write(s, text);
        }
    }
    let _ = sender.publish(claim.lo, claim.hi);
}

/// Sends texts in claims of up to `cut`, until there are so many or a claim is refused for another
/// cause than another sender or want of room, and tells how many it sent.
pub fn send(sender: &mut impl Sends<String>, alloc: Global, count: u64, cut: u64) -> u64 {
    let mut left = count;
    for _ in 0..u64::MAX {
        if left == 0 {
            break;
        }
        let n = left.min(cut);
        match sender.claim(n) {
            Ok(claim) => {
                send_claimed(sender, alloc, claim);
                left -= n;
            }
            Err(Refusal::NoProducer | Refusal::NoRoom) => thread::yield_now(),
            Err(_) => break,
        }
    }
    count.wrapping_sub(left)
}

/// Receives until it is told that the ring drained, and tells how many texts came, or nothing where one came out of order.
pub fn receive<R: Shows<String> + ShowsTexts>(receiver: &mut R, alloc: Global) -> Option<u64> {
    let mut next = 0u64;
    for _ in 0..u64::MAX {
        match receiver.poll(64) {
            Ok(Batch { first, count, .. }) => {
                let upto = next.wrapping_add(count);
                if first != next || !receiver.are_texts(alloc, first, upto) {
                    return None;
                }
                next = upto;
                let _ = receiver.complete(next);
            }
            Ok(Drained) => return Some(next),
            _ => thread::yield_now(),
        }
    }
    None
}
