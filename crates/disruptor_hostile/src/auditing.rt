//! Audits of a history.

use crate::again::again;
use crate::core_calls::{FIVE, FOUR, SIX};
use crate::fault::Fault;
use crate::recording::call;
use crate::telling::Lines;
use dr_lock::{AuditFault, Recorded, audit};
use dr_meaning::Command;
use dr_meaning::Command::{Claim, Poll, Publish, Write};
use dr_seq::Event;
use std::alloc::Global;

/// Producer 1 sends 5 and 6, and producer 0 then 4.
const SENDING: [Command<Event>; 7] = [
    Claim { p: 1, n: 2 },
    Write {
        p: 1,
        s: 0,
        v: FIVE,
    },
    Write { p: 1, s: 1, v: SIX },
    Publish { p: 1, lo: 0, hi: 1 },
    Claim { p: 0, n: 1 },
    Write {
        p: 0,
        s: 2,
        v: FOUR,
    },
    Publish { p: 0, lo: 2, hi: 2 },
];

/// What each producer is to have sent, and scripts of which the second lacks an event.
const SCRIPTS: [&[Event]; 2] = [&[FOUR], &[FIVE, SIX]];

const TOO_SHORT: [&[Event]; 2] = [&[FOUR], &[FIVE]];

fn send_all(recorded: &mut Recorded<Event>) -> Result<(), Fault> {
    for command in &SENDING {
        call(recorded, *command)?;
    }
    Ok(())
}

fn tell_audit<R: Print>(
    out: &Lines<R>,
    alloc: Global,
    recorded: &Recorded<Event>,
    scripts: &[&[Event]],
) {
    match audit(alloc, recorded, scripts) {
        Ok(list) => out.value(list.as_slice()),
        Err(AuditFault::NoMemory) => out.end(Fault::Memory),
        Err(fault) => out.words(fault.name()),
    }
}

fn poll<R: Print>(out: &Lines<R>, recorded: &mut Recorded<Event>, h: usize) {
    if let Err(fault) = call(recorded, Poll { h, max: 8 }) {
        out.end(fault);
    }
}

/// Audits that answer each fault, and one that answers the list, after both handlers took what there is.
fn tell_audits_of<R: Print>(out: &Lines<R>, alloc: Global, recorded: &mut Recorded<Event>) {
    again!(out, tell_audit(out, alloc, recorded, &TOO_SHORT));
    again!(out, tell_audit(out, alloc, recorded, &SCRIPTS));
    for h in 0..2 {
        again!(out, poll(out, recorded, h));
        again!(out, tell_audit(out, alloc, recorded, &SCRIPTS));
    }
}

/// The same, once all is sent.
pub fn tell_audits<R: Print>(out: &Lines<R>, alloc: Global, recorded: &mut Recorded<Event>) {
    match send_all(recorded) {
        Ok(()) => tell_audits_of(out, alloc, recorded),
        Err(fault) => out.end(fault),
    }
}
