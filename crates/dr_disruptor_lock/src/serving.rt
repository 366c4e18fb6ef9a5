//! A handler's worker, with what it promises.

ghost use Rattle.std.specs.Prelude.{◌≡◌};
ghost use Rattle.dr_disruptor_lock.specs.Serving.{Serving};

use crate::around::Around;
use crate::jobs::Job;
use crate::watching::Watching;
use dr_lock::{End, Exchange, LockedOutlet};
use dr_meaning::InPlaceHandler;
use dr_seq::Event;
use dr_workers::{BATCH, OpenGate, WorkFault};
use std::snapshot::Snapshot;
use std::sync::Wait;
use std::sync::ledger::Ledger;
use std::thread::Promise;

/// What a worker gives back: its end, its handler, and its fault if it has one.
#[derive(Drop)]
pub struct Served<L: Ledger, H> {
    pub end: End<Event, L>,
    pub watching: Watching<H>,
    pub fault: Option<WorkFault>,
}

/// The promise of the worker that is given a job.
pub struct ServesPromise<L: Ledger, H> {
    job: Snapshot<Job<L, H>>,
}

impl<L: Ledger, H> ServesPromise<L, H> {
    pub fn of(job: &Job<L, H>) -> ServesPromise<L, H>
        // It is of this job.
        ensures { result.job.value ≡ job.now }
    {
        ServesPromise {
            job: Snapshot::of(job),
        }
    }
}

impl<L: Ledger, H> Drop for ServesPromise<L, H> {
    fn drop(self) {
        let ServesPromise { job: _ } = self;
    }
}

impl<L: Exchange<Event>, H: InPlaceHandler<Event>> Promise<Served<L, H>> for ServesPromise<L, H> {
    ghost kept_by = { λ p back. Serving L.begun H.goes p.job.value back };
}

/// Takes a handler through all events of its end, up to 256 at once, and rings the bell with each completion.
pub fn serve<L: Exchange<Event>, R: Wait, H: InPlaceHandler<Event>>(
    around: &Around<'_, L, R>,
    job: Job<L, H>,
) -> Served<L, H>
    // By calls of this handler it was shown just what its end handed out; the fault is theirs.
    ensures { Serving L.begun H.goes job result }
{
    let Job {
        who,
        end,
        mut watching,
    } = job;
    let (rt, bell) = (around.rt, around.bell);
    let locked = LockedOutlet::new(rt, around.shared, end, who);
    let mut waits = around.strategy.begin(rt, bell, BATCH as u64);
    let (back, fault) = dr_workers::serve(
        rt,
        locked,
        &OpenGate,
        who,
        &mut watching,
        bell,
        &mut waits,
    );
    let end = back.into_end();
    Served {
        end,
        watching,
        fault,
    }
}
