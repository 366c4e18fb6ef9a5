//! Events that own memory come back once each, whatever the ends have in hand when they are brought together.

ghost use Rattle.dr_plain_senders.specs.Calls.Settling.{AreAllEnds};

use super::{Ends, open};
use crate::counted::{Counted, Counting, none_alive, some_events};
use crate::graphs::Shape;
use crate::moments::{Moment, UNTOUCHED, check_moment};
use dr_meaning::MAX_LIMIT;
use std::alloc::Global;
use std::process::Abort;
use std::sync::Arc;

const MOMENTS: [Moment; 12] = [
    UNTOUCHED,
    Moment {
        name: "two claims were half written at a halt",
        sent: &[(2, 1, 0, 0), (2, 1, 0, 0)],
        halted: true,
        lying: [1, 101, 3, 103],
        ..UNTOUCHED
    },
    Moment {
        name: "the later claim is published, and the earlier one is open",
        sent: &[(2, 1, 0, 0), (1, 1, 0, 1)],
        lying: [1, 101, 3, 103],
        ..UNTOUCHED
    },
    Moment {
        name: "both handlers are in the middle of a batch",
        sent: &[(3, 3, 0, 3), (1, 1, 0, 0)],
        handlers: [(3, 1), (2, 0)],
        lying: [1, 2, 3, 4],
        ..UNTOUCHED
    },
    Moment {
        name: "one handler never took anything",
        sent: &[(2, 2, 0, 2), (2, 2, 0, 2)],
        handlers: [(4, 4), (0, 0)],
        halted: true,
        lying: [1, 2, 3, 4],
        ..UNTOUCHED
    },
    Moment {
        name: "a cell of an earlier round is open, another published, and two are not claimed again",
        rounds: 2,
        sent: &[(1, 1, 0, 1), (1, 1, 0, 0)],
        handlers: [(1, 0), (1, 1)],
        halted: true,
        lying: [9, 10, 7, 8],
        ..UNTOUCHED
    },
    Moment {
        name: "all was completed",
        rounds: 1,
        sent: &[(2, 2, 0, 2), (2, 2, 0, 2)],
        handlers: [(4, 4), (4, 4)],
        halted: true,
        lying: [5, 6, 7, 8],
        ..UNTOUCHED
    },
    Moment {
        name: "of a new ring two events are claimed alone, one is changed, and one is not claimed",
        sent: &[(2, 0, 0, 0), (1, 0, 1, 0)],
        lying: [100, 101, 1102, 103],
        ..UNTOUCHED
    },
    Moment {
        name: "and so in a later round",
        rounds: 2,
        sent: &[(2, 0, 0, 0), (1, 0, 1, 0)],
        halted: true,
        lying: [5, 6, 1007, 8],
        ..UNTOUCHED
    },
    Moment {
        name: "the first sender finds what another published last, each in its cell",
        rounds: 1,
        sent: &[(4, 0, 4, 0)],
        lying: [1001, 1002, 1003, 1004],
        ..UNTOUCHED
    },
    Moment {
        name: "and so does the second",
        rounds: 2,
        sent: &[(0, 0, 0, 0), (4, 0, 4, 0)],
        lying: [1005, 1006, 1007, 1008],
        ..UNTOUCHED
    },
    Moment {
        name: "what is changed is published too",
        rounds: 1,
        sent: &[(2, 0, 2, 2), (2, 1, 1, 2)],
        handlers: [(4, 2), (3, 0)],
        lying: [1001, 1002, 7, 1004],
        ..UNTOUCHED
    },
];

fn begin(rt: &impl Abort, alloc: Global, alive: &Arc<u64>) -> Counting<Ends<Counted>>
    ensures { AreAllEnds result.ends.senders.items result.ends.receivers.items result.ends.halter }
{
    let events = some_events(rt, alloc, alive, 4);
    let ends = open(rt, alloc, Shape::SideBySide, MAX_LIMIT, 2, events);
    Counting::new(rt, ends, alive)
}

#[test]
fn each_event_comes_back_once(rt: HostRuntime) {
    let alive = none_alive(&rt, rt.alloc());
    for moment in &MOMENTS {
        for count in [2, 4] {
            let ends = begin(&rt, rt.alloc(), &alive);
            check_moment(&rt, ends, &alive, moment, count);
        }
    }
}
