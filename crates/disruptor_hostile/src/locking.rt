//! Opening a lock, its ends and what brings them together take no memory, nor do calls that a history has room for.

ghost use Rattle.std.specs.Prelude.{◌≡◌};

use crate::core_calls::FOUR;
use crate::fault::Fault;
use crate::recording::{recorded, room};
use crate::taking_none::tell_memory;
use crate::telling::Lines;
use dr_lock::{End, Exchange, Recorded, Shared, Unfinished, finish};
use dr_meaning::Command::{self, Claim, Halt, Poll, Publish, Write};
use dr_seq::Event;
use std::alloc::Global;
use std::marker::Brand;
use std::sync::Wait;
use std::sync::ledger::Blank;

/// What goes through one end, and through another.
const SENT: [Command<Event>; 3] = [
    Claim { p: 0, n: 1 },
    Write {
        p: 0,
        s: 0,
        v: FOUR,
    },
    Publish { p: 0, lo: 0, hi: 0 },
];

const RECEIVED: [Command<Event>; 3] = [Poll { h: 0, max: 8 }, Halt, Claim { p: 1, n: 1 }];

fn tell_call<L: Exchange<Event>, R: Print + Wait>(
    out: &Lines<R>,
    shared: &Shared<Event, L>,
    end: &mut End<Event, L>,
    command: Command<Event>,
) {
    let mut events = [Event::NONE; 8];
    if room(command) > 8 {
        return out.end(Fault::Room);
    }
    match shared.call(out.rt, end, command, &mut events) {
        Ok(reply) => out.value(reply),
        Err(_) => out.end(Fault::Memory),
    }
}

fn tell_calls<L: Exchange<Event>, R: Print + Wait>(
    out: &Lines<R>,
    shared: &Shared<Event, L>,
    end: &mut End<Event, L>,
    commands: &[Command<Event>],
) {
    for command in commands {
        tell_call(out, shared, end, *command);
    }
    out.about("calls", end.calls());
}

fn tell_finished<L: Exchange<Event>, R: Print>(
    out: &Lines<R>,
    shared: Shared<Event, L>,
    ends: Vec<End<Event, L>>,
) {
    match finish(shared, ends) {
        Ok(recorded) => out.between(recorded.history().len(), " ", recorded.values()),
        Err(unfinished) => out.about("unfinished", unfinished.ends.len()),
    }
}

/// Brings one end of two back, and then the other one too.
fn tell_brought<L: Exchange<Event>, R: Print>(
    out: &Lines<R>,
    shared: Shared<Event, L>,
    ends: Vec<End<Event, L>>,
    one: End<Event, L>,
    two: End<Event, L>,
) {
    let mut ends = ends;
    if ends.push(one).is_err() {
        return out.end(Fault::Memory);
    }
    match finish(shared, ends) {
        Ok(_) => out.end(Fault::Left),
        Err(Unfinished { shared, mut ends }) => {
            out.about("unfinished", ends.len());
            if ends.push(two).is_err() {
                return out.end(Fault::Memory);
            }
            tell_finished(out, shared, ends);
        }
    }
}

fn tell_ends<L: Exchange<Event>, R: Print + Wait>(
    out: &Lines<R>,
    shared: &mut Shared<Event, L>,
) -> Option<(End<Event, L>, End<Event, L>)> {
    let mut one = shared.end()?;
    let mut two = shared.end()?;
    tell_calls(out, shared, &mut one, &SENT);
    tell_calls(out, shared, &mut two, &RECEIVED);
    Some((one, two))
}

fn tell_by_lock<L: Exchange<Event>, R: Print + Wait>(
    out: &Lines<R>,
    ends: Vec<End<Event, L>>,
    blank: Blank,
    recorded: Recorded<Event>,
)
    requires name { blank.name ≡ L.name }
    requires parts { blank.parts ≡ L.parts }
    requires ends { blank.parts ≡ 65 }
    requires begun { recorded.history ≡ L.begun }
{
    out.words("open");
    let mut shared = Shared::<Event, L>::new(recorded, blank);
    match tell_ends(out, &mut shared) {
        Some((one, two)) => tell_brought(out, shared, ends, one, two),
        None => out.end(Fault::Left),
    }
}

/// A lock over a history that has room for what it is to keep, with a list that has room for the ends.
fn tell_with_room<L: Exchange<Event>, R: Print + Wait>(
    out: &Lines<R>,
    alloc: Global,
    blank: Blank,
    recorded: Recorded<Event>,
)
    requires name { blank.name ≡ L.name }
    requires parts { blank.parts ≡ L.parts }
    requires ends { blank.parts ≡ 65 }
    requires begun { recorded.history ≡ L.begun }
{
    match Vec::with_capacity(alloc, 2) {
        Ok(ends) => tell_by_lock::<L, R>(out, ends, blank, recorded),
        Err(_) => out.end(Fault::Memory),
    }
    tell_memory(out, alloc);
}

fn tell_over<R: Print + Wait>(out: &Lines<R>, alloc: Global, recorded: Recorded<Event>) {
    tell_with_room::<Brand, R>(out, alloc, Blank::new(65), recorded);
}

/// Opens a history, and puts it behind a lock.
pub fn tell_locked<R: Print + Wait>(out: &Lines<R>, alloc: Global) {
    match recorded(alloc, 17, 8) {
        Ok(recorded) => tell_over(out, alloc, recorded),
        Err(fault) => out.end(fault),
    }
}
