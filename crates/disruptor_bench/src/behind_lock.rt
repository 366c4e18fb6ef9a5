//! The rounds behind the lock: each producer and each handler on a thread of its own, by the library's workers.

ghost use Rattle.std.specs.Prelude.{◌≡◌, ◌<◌};

mod workers;

use crate::STRETCH;
use crate::arguments::Order;
use crate::fault::Fault;
use crate::measured::Round;
use crate::width::Made;
use dr_lock::{End, Exchange, Recorded, Shared, finish};
use dr_meaning::{MAX_LIMIT, Mode};
use dr_seq::Event;
use std::alloc::Global;
use std::marker::Brand;
use std::rt::Clock;
use std::sync::Wait;
use std::sync::ledger::Blank;
use std::thread::Threads;
use std::time::{Duration, Instant};
use workers::{Around, exchange};

/// What is sent, and by how many producers to how many handlers.
#[derive(Clone, Copy)]
struct Load<'a> {
    script: &'a [Event],
    producers: u64,
    handlers: usize,
}

impl Load<'_> {
    fn events(&self) -> u64 {
        (self.script.len() as u64).saturating_mul(self.producers)
    }
}

/// What each producer sends: as many events as all together make a stretch.
fn script(alloc: Global, producers: u64) -> Result<Vec<Event>, Fault> {
    let mut events = Vec::new(alloc);
    for k in 0..STRETCH.checked_div(producers).unwrap_or(0) {
        events.push(Event::at(k))?;
    }
    Ok(events)
}

/// Takes so many ends, and makes room for as many as there are to be in the end.
fn take_ends<L: Exchange<Event>>(
    shared: &mut Shared<Event, L>,
    count: usize,
    room: usize,
    ends: &mut Vec<End<Event, L>>,
) -> Result<(), Fault> {
    ends.reserve(room)?;
    for _end in 0..count {
        ends.push(shared.end().ok_or(Fault::ENDS)?)?;
    }
    Ok(())
}

/// A history with room for all of the round, so that no locked call needs memory: a claim, a write and a
/// publication for each event, and for each handler a batch and a completion; then the halt, and that each handler
/// is told `Drained`.
fn open(alloc: Global, order: &Order, load: &Load<'_>) -> Result<Recorded<Event>, Fault> {
    let events = load.events() as usize;
    let taken = events.saturating_mul(load.handlers);
    let entries = taken
        .saturating_mul(2)
        .saturating_add(events.saturating_mul(3));
    let entries = entries.saturating_add(load.handlers).saturating_add(1);
    let mode = Mode::Multi(load.producers);
    let graph = order.topology.shape.graph(alloc)?;
    match Recorded::open(
        alloc,
        graph,
        order.size,
        mode,
        MAX_LIMIT,
        Event::NONE,
        entries,
        taken,
    ) {
        Ok(recorded) => Ok(recorded),
        Err(_) => Err(Fault::MEMORY),
    }
}

/// Sends and handles all, and answers how long it took. The ends go to those that are back.
fn timed<L: Exchange<Event> + Send + Sync, R: Clock + Threads + Wait + Sync>(
    around: &Around<'_, L, R>,
    alloc: Global,
    ends: Vec<End<Event, L>>,
    back: &mut Vec<End<Event, L>>,
) -> Result<Duration, Fault> {
    let begun = Instant::now(around.rt)?;
    exchange(around, alloc, ends, back)?;
    Ok(begun.elapsed(around.rt)?)
}

/// Takes an end for each handler, one for each producer, and one that halts, which is the first of those that are back.
fn run<L: Exchange<Event> + Send + Sync, R: Clock + Threads + Wait + Sync>(
    rt: &R,
    alloc: Global,
    shared: &mut Shared<Event, L>,
    load: &Load<'_>,
    order: &Order,
    back: &mut Vec<End<Event, L>>,
) -> Result<Duration, Fault> {
    let count = load.handlers.saturating_add(load.producers as usize);
    take_ends(shared, 1, count.saturating_add(1), back)?;
    let mut ends = Vec::new(alloc);
    take_ends(shared, count, count, &mut ends)?;
    let around = Around {
        rt,
        shared,
        script: load.script,
        handlers: load.handlers,
        producers: load.producers,
        cut: order.claim().max(1),
        slots: order.size.get() as usize,
    };
    timed(&around, alloc, ends, back)
}

fn measured<L: Exchange<Event> + Send + Sync, R: Clock + Threads + Wait + Sync>(
    rt: &R,
    alloc: Global,
    blank: Blank,
    recorded: Recorded<Event>,
    load: &Load<'_>,
    order: &Order,
) -> Result<Round, Fault>
    requires name { blank.name ≡ L.name }
    requires parts { blank.parts ≡ L.parts }
    requires ends { blank.parts ≡ 65 }
    requires begun { recorded.history ≡ L.begun }
{
    let mut shared = Shared::<Event, L>::new(recorded, blank);
    let mut back = Vec::new(alloc);
    let time = run(rt, alloc, &mut shared, load, order, &mut back);
    let are_back = finish(shared, back).is_ok();
    let time = time?;
    if !are_back {
        return Err(Fault::ENDS);
    }
    let events = load.events();
    Ok(Round { events, time })
}

/// One round of a stretch of events over a history of its own, from the first thread's start until the last handler
/// is told `Drained`.
pub fn round<R: Clock + Threads + Wait + Sync>(
    rt: &R,
    alloc: Global,
    order: &Order,
    producers: u64,
) -> Result<Round, Fault> {
    let script = script(alloc, producers)?;
    let load = Load {
        script: script.as_slice(),
        producers,
        handlers: order.topology.shape.handlers(),
    };
    let recorded = open(alloc, order, &load)?;
    let blank = Blank::new(65);
    measured::<Brand, R>(rt, alloc, blank, recorded, &load, order)
}
