//! Events that own memory come back once each, whatever the ends have in hand when they are brought together.

ghost use Rattle.dr_plain.specs.Calls.Settling.{AreAllEnds};

use super::{Ends, open};
use crate::counted::{Counted, Counting, none_alive, some_events};
use crate::graphs::Shape;
use crate::moments::{Moment, UNTOUCHED, check_moment};
use dr_meaning::MAX_LIMIT;
use dr_seq::Size;
use std::alloc::Global;
use std::process::Abort;
use std::sync::Arc;

const MOMENTS: [Moment; 6] = [
    UNTOUCHED,
    Moment {
        name: "a claim was half written at a halt",
        sent: &[(3, 2, 0, 0)],
        halted: true,
        lying: [1, 2, 102, 103],
        ..UNTOUCHED
    },
    Moment {
        name: "one handler never took anything",
        sent: &[(4, 4, 0, 4)],
        handlers: [(4, 4), (0, 0)],
        halted: true,
        lying: [1, 2, 3, 4],
        ..UNTOUCHED
    },
    Moment {
        name: "both are in the middle of a batch",
        sent: &[(4, 4, 0, 3)],
        handlers: [(3, 1), (2, 0)],
        lying: [1, 2, 3, 4],
        ..UNTOUCHED
    },
    Moment {
        name: "one handler stopped early",
        sent: &[(3, 3, 0, 3)],
        handlers: [(3, 3), (1, 1)],
        lying: [1, 2, 3, 103],
        ..UNTOUCHED
    },
    Moment {
        name: "all was completed",
        sent: &[(4, 4, 0, 4)],
        handlers: [(4, 4), (4, 4)],
        halted: true,
        lying: [1, 2, 3, 4],
        ..UNTOUCHED
    },
];

fn begin(rt: &impl Abort, alloc: Global, alive: &Arc<u64>) -> Counting<Ends<Counted>>
    ensures { AreAllEnds result.ends.sender result.ends.receivers.items result.ends.halter }
{
    let size = Size::new(4).expect(rt, "a size");
    let events = some_events(rt, alloc, alive, 4);
    assert!(rt; events.len() as u64 == size.get());
    let ends = open(rt, alloc, Shape::SideBySide, size, MAX_LIMIT, events);
    Counting::new(rt, ends, alive)
}

#[test]
fn each_event_comes_back_once(rt: HostRuntime) {
    let alive = none_alive(&rt, rt.alloc());
    for moment in &MOMENTS {
        for count in [2, 4] {
            let ends = begin(&rt, rt.alloc(), &alive);
            check_moment(&rt, ends, &alive, moment, count);
        }
    }
}
