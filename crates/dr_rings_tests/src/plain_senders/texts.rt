//! Texts go from two senders in turn through a diamond.

use super::{Ends, open};
use crate::graphs::Shape;
use crate::texts::{check_drained, empty_texts, receive_three_each, send_three};
use dr_meaning::MAX_LIMIT;
use std::alloc::Global;
use std::process::Abort;

/// A ring of so many texts, which are empty at first, with two senders.
pub fn open_texts(rt: &impl Abort, alloc: Global, shape: Shape, slots: u64) -> Ends<String> {
    let texts = empty_texts(rt, alloc, slots);
    open(rt, alloc, shape, MAX_LIMIT, 2, texts)
}

// Twenty times three texts, from both senders in turn. Each receiver takes two of them first.
fn send_turns(rt: &impl Abort, alloc: Global, ends: &mut Ends<String>) {
    for turn in 0..20u64 {
        let lo = turn.wrapping_mul(3);
        let sender = ends.senders.get_mut((turn % 2) as usize);
        send_three(rt, alloc, sender.expect(rt, "a sender"), lo);
        receive_three_each(rt, alloc, ends.receivers.as_mut_slice(), lo, &[2, 8]);
    }
}

#[test]
fn texts_of_two_senders_through_a_diamond(rt: HostRuntime) {
    let mut ends = open_texts(&rt, rt.alloc(), Shape::Diamond, 4);
    send_turns(&rt, rt.alloc(), &mut ends);
    ends.halter.halt();
    check_drained(&rt, ends.receivers.as_mut_slice());
}
