//! What a run is refused with, and what its sender is.

use crate::checks::{check, diamond, size};
use crate::work::Tally;
use dr_disruptor::{RunFault, WaitStrategy, Way, run};
use dr_meaning::Refusal;
use std::alloc::Global;
use std::process::Abort;

fn check_handlers(rt: &impl Abort, alloc: Global, fault: &RunFault) {
    let said = fault.to_string(alloc).expect(rt, "memory");
    let wanted = "the graph has 3 handlers, and 2 were given";
    check(rt, said.as_str(), wanted);
    assert!(rt; matches!(fault, RunFault::Handlers { graph: 3, given: 2 }));
}

#[test]
fn a_handler_too_few(rt: HostRuntime) {
    let alloc = rt.alloc();
    let graph = diamond(&rt, alloc);
    let size = size(&rt, 4);
    let events = vec![in alloc; 0u64; 4].expect(&rt, "memory");
    let two = (Tally::default(), Tally::default());
    let way = Way::by(WaitStrategy::Parking);
    let ran = run(rt, alloc, &graph, size, events, two, way, |sender| {
        sender.publish_with(|event| *event = 1)
    });
    let fault = ran.err().expect(&rt, "a fault");
    check_handlers(&rt, alloc, &fault);
}

#[test]
fn claims_of_bad_counts(rt: HostRuntime) {
    let alloc = rt.alloc();
    let graph = diamond(&rt, alloc);
    let size = size(&rt, 4);
    let events = vec![in alloc; 0u64; 4].expect(&rt, "memory");
    let tallies = vec![in alloc; Tally::default(); 3].expect(&rt, "memory");
    let way = Way::by(WaitStrategy::Parking);
    let ran = run(rt, alloc, &graph, size, events, tallies, way, |sender| {
        let each = sender.publish_each(9, 5, |event: &mut u64, k| *event = k);
        check(&rt, each, Err(Refusal::BadCount));
        let none = sender.publish_batch(0, &mut |event: &mut u64, k| *event = k);
        check(&rt, none, Err(Refusal::BadCount));
        sender.published()
    });
    let ran = ran.expect(&rt, "a run");
    check(&rt, ran.sent, 0);
    check(&rt, ran.handlers.as_slice(), &[Tally::default(); 3][..]);
}
