//! The threads of a round behind the lock.

ghost use Rattle.std.specs.Prelude.{◌<◌};
ghost use denote.Param.Send.{IsSync};

use crate::fault::Fault;
use crate::sum::{Sum, sum_of_first};
use dr_lock::{End, Exchange, LockedInlet, LockedOutlet, Shared, halt};
use dr_seq::Event;
use dr_workers::{OpenGate, Waiting, consume, produce_with};
use std::alloc::Global;
use std::sync::Wait;
use std::sync::ledger::Ledger;
use std::thread::{self, JoinHandle, Threads};

/// The most events that a handler takes at once.
const MOST_AT_ONCE: usize = 1024;

/// What all threads of a round share.
#[derive(Drop)]
pub struct Around<'a, L: Exchange<Event>, R> {
    pub rt: &'a R,
    pub shared: &'a Shared<Event, L>,
    /// What each producer sends.
    pub script: &'a [Event],
    pub handlers: usize,
    pub producers: u64,
    /// The most events of a claim.
    pub cut: u64,
    /// The slots of the ring.
    pub slots: usize,
}

/// What a thread gives back: its end, and whether it saw all that was sent.
#[derive(Drop)]
struct Worked<L: Ledger> {
    end: End<Event, L>,
    saw_all: bool,
}

type Worker<L> = JoinHandle<Worked<L>>;

/// That a producer sent all is seen by what the handlers added up.
fn send<L: Exchange<Event>, R: Wait>(
    around: &Around<'_, L, R>,
    k: usize,
    end: End<Event, L>,
) -> Worked<L> {
    let mut inlet = LockedInlet::new(around.rt, around.shared, end, k as u64);
    let cut = around.cut.max(1);
    let mut waiting = Waiting::new(around.slots as u64);
    let _sent = produce_with(
        around.rt,
        &mut inlet,
        &OpenGate,
        k,
        around.script,
        cut,
        &mut waiting,
    );
    Worked {
        end: inlet.into_end(),
        saw_all: true,
    }
}

fn handle<L: Exchange<Event>, R: Wait>(
    around: &Around<'_, L, R>,
    k: usize,
    end: End<Event, L>,
) -> Worked<L> {
    let mut outlet = LockedOutlet::new(around.rt, around.shared, end, k);
    let mut buffer = [Event::NONE; MOST_AT_ONCE];
    let room = &mut buffer[..around.slots.min(MOST_AT_ONCE)];
    let mut sum = Sum { total: 0 };
    let _fault = consume(around.rt, &mut outlet, &OpenGate, k, &mut sum, room);
    let sent = sum_of_first(around.script.len() as u64).wrapping_mul(around.producers);
    Worked {
        end: outlet.into_end(),
        saw_all: sum.total == sent,
    }
}

/// The work of a thread: the first ones handle, and the others send.
fn work<L: Exchange<Event>, R: Wait>(
    around: &Around<'_, L, R>,
    k: usize,
    end: End<Event, L>,
) -> Worked<L> {
    match k.checked_sub(around.handlers) {
        None => handle(around, k, end),
        Some(producer) => send(around, producer, end),
    }
}

/// Joins so many of the workers, those that were started last, whose ends go to the others that are back.
fn join<L: Exchange<Event>, R: Threads>(
    around: &Around<'_, L, R>,
    workers: &mut Vec<Worker<L>>,
    count: usize,
    back: &mut Vec<End<Event, L>>,
) -> Result<(), Fault> {
    let mut all = true;
    for _ in 0..count {
        let worker = workers.pop().ok_or(Fault::THREAD)?;
        let Worked { end, saw_all } = worker.join(around.rt);
        back.push(end)?;
        all = all && saw_all;
    }
    if all { Ok(()) } else { Err(Fault::WRONG_SUM) }
}

/// Joins the producers, halts by the end that is back from the beginning, and joins the handlers.
fn join_all<L: Exchange<Event>, R: Threads + Wait>(
    around: &Around<'_, L, R>,
    workers: &mut Vec<Worker<L>>,
    back: &mut Vec<End<Event, L>>,
) -> Result<(), Fault> {
    let producers = workers.len().saturating_sub(around.handlers);
    let sent = join(around, workers, producers, back);
    if let Some(halter) = back.first_mut() {
        halt(around.rt, around.shared, halter);
    }
    join(around, workers, around.handlers, back)?;
    if (producers as u64) < around.producers {
        return Err(Fault::THREAD);
    }
    sent
}

/// Starts a thread for each handler, then one for each producer, and joins them all. The ends go to those that are back,
/// for which there is room, since no thread would be halted where memory ran out. The first one there halts.
pub fn exchange<L: Exchange<Event> + Send + Sync, R: Threads + Wait + Sync>(
    around: &Around<'_, L, R>,
    alloc: Global,
    ends: Vec<End<Event, L>>,
    back: &mut Vec<End<Event, L>>,
) -> Result<(), Fault> {
    thread::scope(
        thread::scope_env(),
        around.rt,
        move |scope| -> Result<(), Fault>
            requires shared { IsSync L.row }
            requires workers { IsSync R.row }
        {
            let mut workers = Vec::with_capacity(alloc, ends.len())?;
            for (k, end) in ends.into_iter().enumerate() {
                // Without one of the handlers nobody would make room for the producers.
                let Ok(worker) = scope.spawn(move || work(around, k, end)) else {
                    break;
                };
                workers.push(worker)?;
            }
            join_all(around, &mut workers, back)
        },
    )
}
