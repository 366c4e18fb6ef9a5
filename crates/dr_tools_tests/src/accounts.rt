//! What no clause says: that a report over memory succeeds, and its text, by the rules of the format.

use crate::checks::check;
use dr_operations::{Movement, Operation};
use dr_reports::report_by_core;
use dr_seq::{Event, Size};
use std::alloc::Global;
use std::process::Abort;

const OPERATIONS: [Operation; 3] = [
    Operation {
        producer: 0,
        movement: Movement::Deposit {
            account: 1,
            amount: 100,
        },
    },
    Operation {
        producer: 2,
        movement: Movement::Transfer {
            from: 1,
            to: 7,
            amount: 30,
        },
    },
    Operation {
        producer: 0,
        movement: Movement::Withdraw {
            account: 7,
            amount: 31,
        },
    },
];

const JOURNAL: &str = "journal 3\n0,0,deposit,1,100\n1,2,transfer,1,7,30\n2,0,withdraw,7,31\n";

const REPLICA: &str =
    "replica 3\n0001000100000064\n0203000100000000000700000000001e\n000200070000001f\n";

const BUSINESS: &str = "business 3\n1,70,0\n7,30,1\n";

fn check_report(rt: &impl Abort, alloc: Global, events: &[Event], slots: u64) {
    let size = Size::new(slots).expect(rt, "a size");
    let report = report_by_core(alloc, events, size).expect(rt, "memory");
    check(rt, report.journal.as_str(), JOURNAL);
    check(rt, report.replica.as_str(), REPLICA);
    check(rt, report.business.as_str(), BUSINESS);
}

#[test]
fn three_operations(rt: HostRuntime) {
    let [first, second, third] = OPERATIONS;
    let events = [first.event(), second.event(), third.event()];
    check_report(&rt, rt.alloc(), &events, 1);
    check_report(&rt, rt.alloc(), &events, 2);
    check_report(&rt, rt.alloc(), &events, 65536);
}
