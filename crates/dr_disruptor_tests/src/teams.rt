//! Handlers of two and of three types, and one that is given its events by value.

use crate::checks::{chain, check, diamond, size};
use crate::work::{Count, Greatest, Tally};
use dr_disruptor::{ByValue, WaitStrategy, Way, run};

const NUMBERS: [u64; 5] = [3, 9, 4, 1, 5];

#[test]
fn two_types(rt: HostRuntime) {
    let alloc = rt.alloc();
    let graph = chain(&rt, alloc);
    let size = size(&rt, 2);
    let events = vec![in alloc; 0u64; 2].expect(&rt, "memory");
    let greatest = ByValue {
        handler: Greatest(0),
    };
    let both = (greatest, Count(0));
    let way = Way::by(WaitStrategy::Parking);
    let ran = run(rt, alloc, &graph, size, events, both, way, |sender| {
        sender.publish_each(5, 1, |event: &mut u64, k| {
            if let Some(number) = NUMBERS.get(k as usize) {
                *event = *number;
            }
        })
    });
    let ran = ran.expect(&rt, "a run");
    check(&rt, ran.sent, Ok(()));
    check(&rt, ran.handlers.0.handler, Greatest(9));
    check(&rt, ran.handlers.1, Count(5));
}

#[test]
fn three_types(rt: HostRuntime) {
    let alloc = rt.alloc();
    let graph = diamond(&rt, alloc);
    let size = size(&rt, 2);
    let events = vec![in alloc; 0u64; 2].expect(&rt, "memory");
    let greatest = ByValue {
        handler: Greatest(0),
    };
    let three = (Tally::default(), Count(0), greatest);
    let way = Way::by(WaitStrategy::Yielding);
    let ran = run(rt, alloc, &graph, size, events, three, way, |sender| {
        sender.publish_each(5, 2, |event: &mut u64, k| {
            if let Some(number) = NUMBERS.get(k as usize) {
                *event = *number;
            }
        })
    });
    let ran = ran.expect(&rt, "a run");
    check(&rt, ran.sent, Ok(()));
    let (tally, count, greatest) = ran.handlers;
    check(&rt, tally.sum, 22);
    check(&rt, count, Count(5));
    check(&rt, greatest.handler, Greatest(9));
}
