//! A handler's worker, with what it promises.

ghost use Rattle.std.specs.Prelude.{◌≡◌, ◌+◌, ◌^◌, ◌<◌, ◌≤◌, false, true, drop, length};
ghost use Rattle.dr_meaning.specs.Calls.Handling.{GoesThrough, showings};
ghost use Rattle.dr_disruptor.specs.Serving.{IsIdle, Serving, Shows};

use crate::way::Way;
use dr_meaning::{InPlaceHandler, InPlaceOutlet, Polled};
use dr_workers::{Bell, Patience};
use std::snapshot::Snapshot;
use std::sync::Wait;
use std::thread::Promise;

/// What a worker gives back: its end and its handler.
#[derive(Drop)]
pub struct Served<O, H> {
    pub outlet: O,
    pub handler: H,
}

/// The promise of the worker that is given an end and a handler.
pub struct ServesPromise<O, H> {
    end: Snapshot<O>,
    start: Snapshot<H>,
    batch: u64,
}

impl<O, H> ServesPromise<O, H> {
    pub(crate) fn of(end: &O, handler: &H, batch: u64) -> ServesPromise<O, H>
        ensures end { result.end.value ≡ end.now }
        ensures start { result.start.value ≡ handler.now }
        ensures batch { result.batch ≡ batch }
    {
        ServesPromise {
            end: Snapshot::of(end),
            start: Snapshot::of(handler),
            batch,
        }
    }
}

impl<O, H> Drop for ServesPromise<O, H> {
    fn drop(self) {
        let ServesPromise {
            end: _,
            start: _,
            batch: _,
        } = self;
    }
}

impl<O: InPlaceOutlet, H: InPlaceHandler<O::Event>> Promise<Served<O, H>> for ServesPromise<O, H> {
    ghost kept_by = { λ p r. Serving O.kept O.received O.told O.saw O.does H.goes p.batch p.start.value p.end.value r };
}

// Shows a handler what its end has in hand, `count` events from `first` on. Where `end` is true the last is marked.
fn show<O: InPlaceOutlet, H: InPlaceHandler<O::Event>>(
    outlet: &O,
    handler: &mut H,
    first: u64,
    count: u64,
    end: bool,
)
    requires low { (O.received outlet.now).completed ≤ first }
    requires high { first + count ≡ length (O.received outlet.now).events }
    requires fits { first + count < 2 ^ 64 }
    ensures { GoesThrough H.goes handler.old (showings (drop first (O.received outlet.now).events) first end) handler.new }
{
    for k in 0..count {
        let event = outlet.event(first + k);
        let last = end && k + 1 == count;
        handler.on_event_in_place(event, first + k, last);
    }
}

// A poll and, for a batch, the handler's calls and the completion. Where nothing came it waits. It answers whether more
// may come.
fn turn<O: InPlaceOutlet, H: InPlaceHandler<O::Event>, P: Patience>(
    outlet: &mut O,
    handler: &mut H,
    bell: &Bell,
    patience: &mut P,
    batch: u64,
) -> bool
    requires idle { IsIdle (O.received outlet.old) }
    requires batch { 0 < batch }
    ensures shows { Shows O.kept O.received O.saw O.does H.goes batch handler.old handler.new outlet.old outlet.new }
    ensures told { result ≡ false → O.told outlet.new ≡ true }
{
    match outlet.poll(batch) {
        Polled::Batch { first, count, end } => {
            patience.found(count);
            show(outlet, handler, first, count, end);
            outlet.complete(first + count);
            bell.ring();
            true
        }
        Polled::Drained => false,
        Polled::Gating => {
            patience.wait();
            true
        }
        Polled::Idle => {
            patience.wait();
            true
        }
    }
}

// Turn after turn, until the end is told that the exchange drained.
fn turns<R: Wait, O: InPlaceOutlet, H: InPlaceHandler<O::Event>, P: Patience>(
    rt: &R,
    outlet: &mut O,
    handler: &mut H,
    bell: &Bell,
    patience: &mut P,
    batch: u64,
)
    requires idle { IsIdle (O.received outlet.old) }
    requires batch { 0 < batch }
    ensures shows { Shows O.kept O.received O.saw O.does H.goes batch handler.old handler.new outlet.old outlet.new }
    ensures told { O.told outlet.new ≡ true }
{
    for _ in rt.forever() {
        let goes_on = turn(outlet, handler, bell, patience, batch);
        if !goes_on {
            return;
        }
    }
    unreachable!()
}

/// Takes a handler through all events of an end, each where it lies, at most a batch at once, and rings the bell with
/// each completion.
pub fn serve<R: Wait, O: InPlaceOutlet, H: InPlaceHandler<O::Event>>(
    rt: &R,
    mut outlet: O,
    mut handler: H,
    bell: &Bell,
    way: Way,
) -> Served<O, H>
    requires idle { IsIdle (O.received outlet) }
    requires batch { 0 < way.batch }
    // The handler was shown just what the end handed out, all of it is completed, and it was told `Drained`.
    ensures { Serving O.kept O.received O.told O.saw O.does H.goes way.batch handler outlet result }
{
    let mut waits = way.strategy.begin(rt, bell, way.batch);
    turns(rt, &mut outlet, &mut handler, bell, &mut waits, way.batch);
    Served { outlet, handler }
}
