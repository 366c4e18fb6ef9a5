//! A lock is finished once all its ends are back.

ghost use Rattle.std.specs.Prelude.{◌≡◌};

use crate::checks::check;
use crate::graphs::Shape;
use crate::histories::between_two;
use crate::playing::play_rows;
use crate::words::Answer::{Batch, Claimed, Completed, Idle, Published, Written};
use crate::words::Call::{Claim, Complete, Poll, Publish, Write};
use crate::words::{Answer, Call};
use dr_lock::{End, Exchange, Recorded, Shared, Unfinished, finish};
use dr_seq::Event;
use std::alloc::Global;
use std::marker::Brand;
use std::process::Abort;
use std::sync::Wait;
use std::sync::ledger::Blank;

/// Through one end an event is sent, and through another one it is received.
const SENT: [(Call, Answer); 3] = [
    (Claim(0, 1), Claimed(0, 0)),
    (Write(0, 0, 5), Written),
    (Publish(0, 0, 0), Published),
];

const RECEIVED: [(Call, Answer); 3] = [
    (Poll(0, 8), Batch(0, 1, true)),
    (Complete(0, 1), Completed),
    (Poll(0, 8), Idle),
];

/// Without one of its ends the lock is handed back as it is, and with both the history is.
fn finished<L: Exchange<Event>, R: Wait + Abort>(
    rt: &R,
    alloc: Global,
    shared: Shared<Event, L>,
    one: End<Event, L>,
    two: End<Event, L>,
) -> Recorded<Event> {
    let ends = vec![in alloc; one].expect(rt, "memory");
    let Err(Unfinished { shared, mut ends }) = finish(shared, ends) else {
        panic!(rt; "an end is missing");
    };
    check(rt, ends.len(), 1);
    ends.push(two).expect(rt, "memory");
    let Ok(recorded) = finish(shared, ends) else {
        panic!(rt; "the ends are back");
    };
    recorded
}

fn by_two_ends<L: Exchange<Event>, R: Wait + Abort>(
    rt: &R,
    alloc: Global,
    blank: Blank,
    recorded: Recorded<Event>,
) -> Recorded<Event>
    requires name { blank.name ≡ L.name }
    requires parts { blank.parts ≡ L.parts }
    requires ends { blank.parts ≡ 65 }
    requires begun { recorded.history ≡ L.begun }
{
    let mut kept = Vec::new(alloc);
    let mut shared = Shared::<Event, L>::new(recorded, blank);
    let mut one = shared.end().expect(rt, "an end");
    let mut two = shared.end().expect(rt, "an end");
    play_rows(rt, &shared, &mut one, &SENT, &mut kept);
    play_rows(rt, &shared, &mut two, &RECEIVED, &mut kept);
    check(rt, one.calls(), 3);
    check(rt, two.calls(), 2);
    finished(rt, alloc, shared, one, two)
}

#[test]
fn a_lock_is_finished_with_all_its_ends(rt: HostRuntime) {
    let recorded = between_two(&rt, rt.alloc(), Shape::Alone);
    let recorded = by_two_ends::<Brand, _>(&rt, rt.alloc(), Blank::new(65), recorded);
    check(&rt, recorded.history().len(), 5);
}
