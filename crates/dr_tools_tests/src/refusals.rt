//! The printed text of each fault.

use crate::checks::check_text;
use dr_meaning::{OpenFault, Refusal, Trouble};

const REFUSALS: [(Refusal, &str); 16] = [
    (Refusal::NoRoom, "no-room"),
    (Refusal::Halted, "halted"),
    (Refusal::BadCount, "bad-count"),
    (Refusal::Exhausted, "exhausted"),
    (Refusal::NotClaimed, "not-claimed"),
    (Refusal::AlreadyPublished, "already-published"),
    (Refusal::NotWritten, "not-written"),
    (Refusal::OutOfOrder, "out-of-order"),
    (Refusal::NotTaken, "not-taken"),
    (Refusal::Behind, "behind"),
    (Refusal::NoProducer, "no-producer"),
    (Refusal::NoHandler, "no-handler"),
    (Refusal::Retired, "retired"),
    (Refusal::NotFinal, "not-final"),
    (Refusal::LastHandler, "last-handler"),
    (Refusal::OpenClaim, "open-claim"),
];

const OPEN_FAULTS: [(OpenFault, &str); 3] = [
    (OpenFault::BadProducers, "bad-producers"),
    (OpenFault::BadLimit, "bad-limit"),
    (OpenFault::NoMemory, "no-memory"),
];

#[test]
fn refusals_print_their_names(rt: HostRuntime) {
    for (refusal, name) in &REFUSALS {
        check_text(&rt, rt.alloc(), *refusal, *name);
        check_text(&rt, rt.alloc(), Trouble::Refused(*refusal), *name);
    }
    check_text(&rt, rt.alloc(), Trouble::Memory, "no-memory");
}

#[test]
fn faults_of_opening_print_their_names(rt: HostRuntime) {
    for (fault, name) in &OPEN_FAULTS {
        check_text(&rt, rt.alloc(), *fault, *name);
    }
}
