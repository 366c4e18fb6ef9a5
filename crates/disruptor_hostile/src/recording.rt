//! A history, and the calls that it keeps.

ghost use Rattle.std.specs.Prelude.{◌≡◌};
ghost use Rattle.dr_lock.specs.Meaning.History.{asked};

use crate::again::again;
use crate::auditing::tell_audits;
use crate::core_calls::{FIVE, FOUR, SIX};
use crate::fault::Fault;
use crate::graphs::{TWO, graph};
use crate::taking_none::tell_kept;
use crate::telling::Lines;
use dr_lock::Recorded;
use dr_meaning::Command::{Claim, Complete, Halt, Poll, Publish, Retire, Write};
use dr_meaning::{Command, MAX_LIMIT, Mode, Reply};
use dr_seq::{Event, Size};
use std::alloc::Global;

/// The room that a command asks for.
pub fn room(command: Command<Event>) -> usize
    ensures { result ≡ asked command }
{
    match command {
        Poll { h: _, max } => max,
        _ => 0,
    }
}

/// Two handlers and two producers, over four slots, with room for so many entries and events.
pub fn recorded(alloc: Global, entries: usize, events: usize) -> Result<Recorded<Event>, Fault> {
    let size = Size::new(4)?;
    let graph = graph(alloc, &TWO, &[])?;
    let mode = Mode::Multi(2);
    Ok(Recorded::open(
        alloc,
        graph,
        size,
        mode,
        MAX_LIMIT,
        Event::NONE,
        entries,
        events,
    )?)
}

/// Makes a call that offers room for up to eight events.
pub fn call(recorded: &mut Recorded<Event>, command: Command<Event>) -> Result<Reply, Fault> {
    let mut out = [Event::NONE; 8];
    if room(command) > 8 {
        return Err(Fault::Room);
    }
    Ok(recorded.call(command, &mut out)?)
}

/// What two producers send, and two handlers receive: each kind of command, each kind of reply that
/// is kept, and some that are not.
pub const COMMANDS: [Command<Event>; 17] = [
    Claim { p: 0, n: 1 },
    Claim { p: 1, n: 2 },
    Write {
        p: 1,
        s: 1,
        v: FIVE,
    },
    Write { p: 1, s: 2, v: SIX },
    Publish { p: 1, lo: 1, hi: 2 },
    Poll { h: 0, max: 8 },
    Write {
        p: 0,
        s: 0,
        v: FOUR,
    },
    Write {
        p: 0,
        s: 3,
        v: FOUR,
    },
    Publish { p: 0, lo: 0, hi: 0 },
    Poll { h: 0, max: 2 },
    Poll { h: 0, max: 8 },
    Poll { h: 1, max: 8 },
    Complete { h: 0, upto: 3 },
    Retire { h: 1 },
    Halt,
    Poll { h: 0, max: 8 },
    Poll { h: 1, max: 8 },
];

const COUNTS: [&str; 4] = ["", " entries, ", " producers, ", " handlers"];

fn tell_beginning<R: Print>(out: &Lines<R>, recorded: &mut Recorded<Event>) {
    let entries = recorded.history().len();
    out.three(
        &COUNTS,
        entries,
        recorded.producers(),
        recorded.graph().len(),
    );
    match call(recorded, Claim { p: 1, n: 4 }) {
        Ok(reply) => out.value(reply),
        Err(fault) => out.end(fault),
    }
}

fn tell_call<R: Print>(out: &Lines<R>, recorded: &mut Recorded<Event>, command: Command<Event>) {
    match call(recorded, command) {
        Ok(reply) => out.between(reply, " ", recorded.history().len()),
        Err(fault) => out.end(fault),
    }
}

fn tell_commands<R: Print>(out: &Lines<R>, recorded: &mut Recorded<Event>) {
    for command in &COMMANDS {
        again!(out, tell_call(out, recorded, *command));
    }
}

fn tell_entries<R: Print>(out: &Lines<R>, recorded: &Recorded<Event>) {
    for entry in recorded.history() {
        out.value(*entry);
    }
    out.value(recorded.values());
}

/// What is done with a history.
#[derive(Clone, Copy)]
pub enum OfHistory {
    /// It is told how one with room begins.
    Beginning,
    /// Calls of one that has no room to begin with, and what it kept.
    Calls,
    Audits,
    /// Calls of one with room for what it keeps.
    Kept,
}

fn tell_done<R: Print>(
    out: &Lines<R>,
    alloc: Global,
    recorded: &mut Recorded<Event>,
    what: OfHistory,
) {
    match what {
        OfHistory::Beginning => tell_beginning(out, recorded),
        OfHistory::Calls => {
            tell_commands(out, recorded);
            tell_entries(out, recorded);
        }
        OfHistory::Audits => tell_audits(out, alloc, recorded),
        OfHistory::Kept => tell_kept(out, alloc, recorded),
    }
}

/// Opens a history, whose graph is spent each time, and does this with it.
pub fn tell_history<R: Print>(out: &Lines<R>, alloc: Global, what: OfHistory) {
    let (entries, events) = match what {
        OfHistory::Beginning => (4, 2),
        OfHistory::Calls | OfHistory::Audits => (0, 0),
        OfHistory::Kept => (17, 8),
    };
    match recorded(alloc, entries, events) {
        Ok(mut recorded) => tell_done(out, alloc, &mut recorded, what),
        Err(fault) => out.end(fault),
    }
}
