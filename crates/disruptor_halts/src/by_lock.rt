//! Rounds behind the lock, from the opening of an exchange to the audit of its history.

ghost use Rattle.std.specs.Prelude.{◌≡◌};

mod seat;

use crate::fault::Fault;
use crate::graphs::{any_size, graph};
use crate::random::Random;
use crate::round::{Came, Opened, play};
use crate::sending::Sent;
use crate::told::Told;
use dr_lock::{End, Exchange, Recorded, Shared, audit, finish};
use dr_meaning::{MAX_LIMIT, Mode};
use dr_seq::Event;
use seat::Seat;
use std::alloc::{AllocError, Global};
use std::marker::Brand;
use std::slice::IterMut;
use std::sync::Wait;
use std::sync::ledger::Blank;
use std::thread::Threads;

/// How many ends a round has at most: of three producers, of three handlers, and of who halts.
const MOST_ENDS: usize = 7;

/// What an exchange is opened with.
#[derive(Clone, Copy)]
struct Setup {
    producers: u64,
    handlers: u64,
    slots: u64,
    in_order: bool,
}

fn add_ends<L: Exchange<Event>>(
    shared: &mut Shared<Event, L>,
    ends: &mut Vec<Option<End<Event, L>>>,
) -> Result<(), Fault> {
    for _ in 0..MOST_ENDS {
        let end = shared.end().ok_or(Fault::Ends)?;
        ends.push(Some(end))?;
    }
    Ok(())
}

/// Seats at the next of these ends, numbered from 0.
fn seats_of<'a, L: Exchange<Event>, R>(
    rt: &'a R,
    alloc: Global,
    shared: &'a Shared<Event, L>,
    ends: &mut IterMut<'a, Option<End<Event, L>>>,
    count: u64,
) -> Result<Vec<Seat<'a, L, R>>, Fault> {
    let mut all = Vec::new(alloc);
    for number in 0..count {
        let end = ends.next().ok_or(Fault::Ends)?;
        all.push(Seat {
            rt,
            shared,
            end,
            number,
        })?;
    }
    Ok(all)
}

/// The ends that are there.
fn gathered<L: Exchange<Event>>(
    alloc: Global,
    ends: Vec<Option<End<Event, L>>>,
) -> Result<Vec<End<Event, L>>, AllocError> {
    let mut all = Vec::with_capacity(alloc, MOST_ENDS)?;
    for end in ends {
        if let Some(end) = end {
            all.push(end)?;
        }
    }
    Ok(all)
}

/// The events that each producer sent.
fn scripts_of<'a>(alloc: Global, all: &'a [Sent]) -> Result<Vec<&'a [Event]>, AllocError> {
    let mut scripts = Vec::new(alloc);
    for sent in all {
        scripts.push(sent.events.as_slice())?;
    }
    Ok(scripts)
}

/// Compares what each handler received with the one list of the audit.
fn told(alloc: Global, recorded: &Recorded<Event>, came: &Came) -> Result<Told, Fault> {
    let scripts = scripts_of(alloc, came.sent.as_slice())?;
    let list = audit(alloc, recorded, scripts.as_slice())?;
    Told::of(list.as_slice(), came.received.as_slice())
}

/// Brings the ends back to the lock, and audits.
fn audited<L: Exchange<Event>>(
    alloc: Global,
    shared: Shared<Event, L>,
    ends: Vec<Option<End<Event, L>>>,
    came: &Came,
) -> Result<Told, Fault> {
    let Ok(ends) = gathered(alloc, ends) else {
        return Err(Fault::Memory);
    };
    match finish(shared, ends) {
        Ok(recorded) => told(alloc, &recorded, came),
        Err(_) => Err(Fault::Ends),
    }
}

/// A seat for each producer, for each handler, and for who halts.
fn seated<'a, L: Exchange<Event>, R>(
    rt: &'a R,
    alloc: Global,
    shared: &'a Shared<Event, L>,
    ends: &mut IterMut<'a, Option<End<Event, L>>>,
    setup: Setup,
) -> Result<Opened<Seat<'a, L, R>, Seat<'a, L, R>, Seat<'a, L, R>>, Fault> {
    let halter = Seat {
        rt,
        shared,
        end: ends.next().ok_or(Fault::Ends)?,
        number: 0,
    };
    let inlets = seats_of(rt, alloc, shared, ends, setup.producers)?;
    let outlets = seats_of(rt, alloc, shared, ends, setup.handlers)?;
    Ok(Opened {
        inlets,
        outlets,
        halter,
        slots: setup.slots,
        in_order: setup.in_order,
    })
}

/// Runs an exchange with threads of their own for each producer and each handler, over new ends, which stay there.
fn run<L: Exchange<Event> + Send + Sync, R: Threads + Wait + Sync>(
    rt: &R,
    alloc: Global,
    shared: &mut Shared<Event, L>,
    ends: &mut Vec<Option<End<Event, L>>>,
    setup: Setup,
    random: &mut Random,
) -> Result<Came, Fault> {
    add_ends(shared, ends)?;
    let opened = seated(rt, alloc, shared, &mut ends.iter_mut(), setup)?;
    play(rt, alloc, opened, random)
}

/// Runs an exchange over a ledger, and compares what each handler received with the list of the audit.
fn round_over<L: Exchange<Event> + Send + Sync, R: Threads + Wait + Sync>(
    rt: &R,
    alloc: Global,
    blank: Blank,
    recorded: Recorded<Event>,
    setup: Setup,
    random: &mut Random,
) -> Result<Told, Fault>
    requires name { blank.name ≡ L.name }
    requires parts { blank.parts ≡ L.parts }
    requires ends { blank.parts ≡ 65 }
    requires begun { recorded.history ≡ L.begun }
{
    let mut shared = Shared::<Event, L>::new(recorded, blank);
    let mut ends = Vec::new(alloc);
    match run(rt, alloc, &mut shared, &mut ends, setup, random) {
        Ok(came) => audited(alloc, shared, ends, &came),
        Err(fault) => Err(fault),
    }
}

/// A core with a random graph and up to three producers, and what it was opened with.
fn recorded(alloc: Global, random: &mut Random) -> Result<(Recorded<Event>, Setup), Fault> {
    let graph = graph(alloc, random)?;
    let handlers = graph.len() as u64;
    let size = any_size(random)?;
    let (mode, producers) = match random.below(4) {
        0 => (Mode::Single, 1),
        producers => (Mode::Multi(producers), producers),
    };
    let setup = Setup {
        producers,
        handlers,
        slots: size.get(),
        in_order: matches!(mode, Mode::Single),
    };
    let recorded = Recorded::open(alloc, graph, size, mode, MAX_LIMIT, Event::NONE, 0, 0)?;
    Ok((recorded, setup))
}

/// Runs an exchange with threads of their own for each producer and each handler, any of which may
/// halt it, and compares what each handler received with the list of the audit.
pub fn round<R: Threads + Wait + Sync>(
    rt: &R,
    alloc: Global,
    random: &mut Random,
) -> Result<Told, Fault> {
    let (recorded, setup) = recorded(alloc, random)?;
    round_over::<Brand, R>(rt, alloc, Blank::new(65), recorded, setup, random)
}
