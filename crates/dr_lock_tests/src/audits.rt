//! Audits of a history of two producers.

use crate::checks::check;
use crate::graphs::Shape;
use crate::histories::{between_two, room};
use dr_lock::{AuditFault, Recorded, audit};
use dr_meaning::Command::{self, Claim, Poll, Publish, Retire, Write};
use dr_seq::Event;
use std::alloc::Global;
use std::process::Abort;

const FOUR: Event = Event {
    first: 4,
    second: 0,
};

const FIVE: Event = Event {
    first: 5,
    second: 0,
};

const SIX: Event = Event {
    first: 6,
    second: 0,
};

const SEVEN: Event = Event {
    first: 7,
    second: 0,
};

/// A call, or an audit of scripts, which finds both events or this fault.
enum Step {
    Call(Command<Event>),
    Audit(&'static [&'static [Event]], Option<AuditFault>),
}

use Step::{Audit, Call};

/// What is done with a history of two producers, and what it holds at last.
struct Case {
    shape: Shape,
    steps: &'static [Step],
    entries: usize,
    values: &'static [Event],
}

/// Producer 0 sends 5, and producer 1 then 6.
const SENT: [Step; 6] = [
    Call(Claim { p: 0, n: 1 }),
    Call(Write {
        p: 0,
        s: 0,
        v: FIVE,
    }),
    Call(Publish { p: 0, lo: 0, hi: 0 }),
    Call(Claim { p: 1, n: 1 }),
    Call(Write { p: 1, s: 1, v: SIX }),
    Call(Publish { p: 1, lo: 1, hi: 1 }),
];

const CASES: [Case; 3] = [
    // Each script is compared before the handlers, and of several that differ the least producer is told.
    Case {
        shape: Shape::Alone,
        steps: &[
            Audit(&[&[FOUR], &[SIX]], Some(AuditFault::ScriptDiffers(0))),
            Audit(&[&[FIVE], &[SIX]], Some(AuditFault::NotDrained(0))),
            Call(Poll { h: 0, max: 8 }),
            Audit(&[&[FIVE], &[SIX]], None),
            Audit(&[&[FIVE], &[SEVEN]], Some(AuditFault::ScriptDiffers(1))),
        ],
        entries: 7,
        values: &[FIVE, SIX],
    },
    // A script without a producer is to be empty.
    Case {
        shape: Shape::Alone,
        steps: &[
            Call(Poll { h: 0, max: 8 }),
            Audit(&[&[FIVE], &[SIX], &[]], None),
            Audit(
                &[&[FIVE], &[SIX], &[], &[SIX]],
                Some(AuditFault::ScriptDiffers(3)),
            ),
        ],
        entries: 7,
        values: &[FIVE, SIX],
    },
    // A handler that is retired may lack events.
    Case {
        shape: Shape::SideBySide,
        steps: &[
            Call(Poll { h: 0, max: 1 }),
            Call(Poll { h: 1, max: 8 }),
            Audit(&[&[FIVE], &[SIX]], Some(AuditFault::NotDrained(0))),
            Call(Retire { h: 0 }),
            Audit(&[&[FIVE], &[SIX]], None),
        ],
        entries: 9,
        values: &[FIVE, FIVE, SIX],
    },
];

fn call(rt: &impl Abort, recorded: &mut Recorded<Event>, command: Command<Event>) {
    let mut out = [Event::NONE; 8];
    assert!(rt; room(command) <= 8);
    recorded.call(command, &mut out).expect(rt, "memory");
}

fn check_audit(
    rt: &impl Abort,
    alloc: Global,
    recorded: &Recorded<Event>,
    scripts: &[&[Event]],
    fault: Option<AuditFault>,
) {
    match audit(alloc, recorded, scripts) {
        Ok(list) => {
            check(rt, fault, None);
            check(rt, list.as_slice(), &[FIVE, SIX][..]);
        }
        Err(found) => check(rt, Some(found), fault),
    }
}

fn take(rt: &impl Abort, alloc: Global, recorded: &mut Recorded<Event>, steps: &[Step]) {
    for step in steps {
        match step {
            Call(command) => call(rt, recorded, *command),
            Audit(scripts, fault) => check_audit(rt, alloc, recorded, *scripts, *fault),
        }
    }
}

fn check_history(rt: &impl Abort, recorded: &Recorded<Event>, case: &Case) {
    check(rt, recorded.values(), case.values);
    check(rt, recorded.history().len(), case.entries);
    check(rt, recorded.producers(), 2);
}

fn check_case(rt: &impl Abort, alloc: Global, case: &Case) {
    let mut recorded = between_two(rt, alloc, case.shape);
    take(rt, alloc, &mut recorded, &SENT);
    take(rt, alloc, &mut recorded, case.steps);
    check_history(rt, &recorded, case);
}

#[test]
fn histories_of_two_producers(rt: HostRuntime) {
    for case in &CASES {
        check_case(&rt, rt.alloc(), case);
    }
}
