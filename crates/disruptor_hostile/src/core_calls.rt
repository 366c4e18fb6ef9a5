//! Opening a core, and a run of commands.

use crate::again::again;
use crate::fault::Fault;
use crate::graphs::{self, graph};
use crate::taking_none::{MANY, tell_core_beside, tell_many};
use crate::telling::Lines;
use dr_core::{Core, Ran, run};
use dr_meaning::Command::{Claim, Poll, Publish, Write};
use dr_meaning::{Command, MAX_LIMIT, Mode};
use dr_seq::{Event, Size};
use std::alloc::Global;

pub fn word(first: u64) -> Event {
    Event { first, second: 0 }
}

pub const TWO: Event = Event {
    first: 2,
    second: 0,
};

pub const THREE: Event = Event {
    first: 3,
    second: 0,
};

pub const FOUR: Event = Event {
    first: 4,
    second: 0,
};

pub const FIVE: Event = Event {
    first: 5,
    second: 0,
};

pub const SIX: Event = Event {
    first: 6,
    second: 0,
};

/// A core of so many slots with two handlers and a third after both, or with one handler.
pub fn opened(
    alloc: Global,
    is_diamond: bool,
    slots: u64,
    mode: Mode,
) -> Result<Core<Event>, Fault> {
    let size = Size::new(slots)?;
    let (first, then): (&[&str], &[&str]) = if is_diamond {
        (&graphs::TWO, &graphs::THIRD)
    } else {
        (&graphs::ONE, &[])
    };
    let graph = graph(alloc, first, then)?;
    Ok(Core::open(alloc, graph, size, mode, MAX_LIMIT, Event::NONE)?)
}

fn send_three<R: Print>(out: &Lines<R>, core: &mut Core<Event>) {
    out.given(core.claim(0, 3));
    for s in 0..3 {
        out.done(core.write(0, s, word(s)));
    }
    out.done(core.publish(0, 0, 2));
}

fn tell_polls<R: Print>(out: &Lines<R>, core: &mut Core<Event>) {
    let mut events = [Event::NONE; 4];
    for h in 0..3 {
        let polled = core.poll_into(h, &mut events);
        out.given_with(polled, events);
    }
}

/// Producer 1 publishes first, and the handler waits at the gap that producer 0 has left.
const COMMANDS: [Command<Event>; 9] = [
    Claim { p: 0, n: 1 },
    Claim { p: 1, n: 2 },
    Write {
        p: 1,
        s: 1,
        v: FIVE,
    },
    Write { p: 1, s: 2, v: SIX },
    Publish { p: 1, lo: 1, hi: 2 },
    Poll { h: 0, max: 8 },
    Write {
        p: 0,
        s: 0,
        v: FOUR,
    },
    Publish { p: 0, lo: 0, hi: 0 },
    Poll { h: 0, max: 8 },
];

fn tell_ran<R: Print>(out: &Lines<R>, ran: &Ran<Event>) {
    for reply in &ran.replies {
        out.value(*reply);
    }
    out.value(ran.values.as_slice());
}

fn tell_run_over<R: Print>(out: &Lines<R>, alloc: Global, core: &mut Core<Event>) {
    match run(alloc, core, &COMMANDS) {
        Ok(ran) => tell_ran(out, &ran),
        Err(_) => out.end(Fault::Memory),
    }
}

/// What is done with a core.
#[derive(Clone, Copy)]
pub enum OfCore {
    /// Three events are sent through one of a single producer.
    Single,
    /// And through one of two producers.
    Multi,
    /// `run`, at a gap between two producers.
    Run,
    /// Every call of cores that are open.
    EveryCall,
    /// A poll of many events.
    Many,
}

fn opened_for(alloc: Global, what: OfCore) -> Result<Core<Event>, Fault> {
    match what {
        OfCore::Single => opened(alloc, true, 4, Mode::Single),
        OfCore::Multi | OfCore::EveryCall => opened(alloc, true, 4, Mode::Multi(2)),
        OfCore::Run => opened(alloc, false, 4, Mode::Multi(2)),
        OfCore::Many => opened(alloc, false, MANY as u64, Mode::Single),
    }
}

fn tell_done<R: Print>(out: &Lines<R>, alloc: Global, core: &mut Core<Event>, what: OfCore) {
    match what {
        OfCore::Single | OfCore::Multi => {
            send_three(out, core);
            tell_polls(out, core);
        }
        OfCore::Run => {
            again!(out, tell_run_over(out, alloc, core));
        }
        OfCore::EveryCall => tell_core_beside(out, alloc, core),
        OfCore::Many => tell_many(out, alloc, core),
    }
}

/// Opens a core, whose graph is spent each time, and does this with it.
pub fn tell_core<R: Print>(out: &Lines<R>, alloc: Global, what: OfCore) {
    match opened_for(alloc, what) {
        Ok(mut core) => tell_done(out, alloc, &mut core, what),
        Err(fault) => out.end(fault),
    }
}

/// Opens cores of one producer and of two.
pub fn tell_opened<R: Print>(out: &Lines<R>, alloc: Global) {
    again!(out, tell_core(out, alloc, OfCore::Single));
    again!(out, tell_core(out, alloc, OfCore::Multi));
}
