//! How often a poll looks at a word of the ring.

use super::open;
use crate::checks::{check, check_at};
use crate::graphs::Shape;
use dr_meaning::{MAX_LIMIT, Polled};
use dr_ring::Receiver;
use dr_seq::Event;
use std::process::Abort;

fn check_looks(rt: &impl Abort, receivers: &mut [Receiver]) {
    for (h, looks) in [(0, 2), (1, 2), (2, 4)] {
        assert!(rt; h < receivers.len());
        let before = receivers[h].looks();
        check_at(
            rt,
            receivers[h].poll_into(&mut [Event::NONE]),
            Ok(Polled::Idle),
            h,
        );
        check_at(rt, receivers[h].looks(), before.wrapping_add(looks), h);
    }
}

#[test]
fn looks_of_a_poll(rt: HostRuntime) {
    let mut ends = open(&rt, rt.alloc(), Shape::Diamond, 4, MAX_LIMIT);
    check_looks(&rt, ends.receivers.as_mut_slice());
    check(&rt, ends.sender.looks(), 0);
}
