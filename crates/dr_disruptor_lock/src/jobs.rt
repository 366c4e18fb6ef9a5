//! What the workers of a run are given, each with an end of its own.

ghost use Rattle.std.specs.Prelude.{◌≡◌, ◌+◌, ◌≤◌, IfOk, length, map};
ghost use Rattle.dr_lock.specs.Calls.Lock.{no_calls};
ghost use Rattle.dr_disruptor_lock.specs.Jobs.{AreJobs, AreTasks};

use crate::watching::Watching;
use dr_lock::{End, Exchange, Shared};
use dr_seq::Event;
use dr_workers::SENDER;
use std::alloc::{AllocError, Global};
use std::sync::ledger::Ledger;

/// What the worker of the handler `who` is given.
#[derive(Drop)]
pub struct Job<L: Ledger, H> {
    pub who: usize,
    pub end: End<Event, L>,
    pub watching: Watching<H>,
}

/// What the worker `who` is given, which sends a script as the producer `p`.
#[derive(Drop)]
pub struct Task<L: Ledger> {
    pub who: usize,
    pub p: u64,
    pub end: End<Event, L>,
    pub script: Vec<Event>,
}

/// One end more, through which nobody has called.
pub(crate) fn new_end<L: Exchange<Event>>(
    shared: &mut Shared<Event, L>,
) -> Result<End<Event, L>, AllocError>
    ensures given { IfOk result (λ end. shared.new ≡ record shared.old { given = shared.old.given + 1 }) }
    ensures unused { IfOk result (λ end. end ≡ no_calls) }
{
    shared.end().ok_or(AllocError)
}

/// A job for each handler, with room for so many events.
pub(crate) fn jobs_of<L: Exchange<Event>, H: Drop>(
    alloc: Global,
    shared: &mut Shared<Event, L>,
    handlers: Vec<H>,
    room: usize,
) -> Result<Vec<Job<L, H>>, AllocError>
    ensures begun { IfOk result (λ jobs. shared.new.begun ≡ shared.old.begun) }
    ensures given { IfOk result (λ jobs. shared.new.given ≡ shared.old.given + length jobs.items) }
    ensures handlers { IfOk result (λ jobs. map (λ j. j.watching.handler) jobs.items ≡ handlers.items) }
    ensures fresh { IfOk result (λ jobs. AreJobs room jobs.items) }
{
    let mut jobs = Vec::with_capacity(alloc, handlers.len())?;
    for handler in handlers {
        let end = new_end(shared)?;
        let watching = Watching::new(alloc, handler, room)?;
        let who = jobs.len();
        jobs.push(Job { who, end, watching })?;
    }
    Ok(jobs)
}

/// A task for each script.
pub(crate) fn tasks_of<L: Exchange<Event>>(
    alloc: Global,
    shared: &mut Shared<Event, L>,
    scripts: Vec<Vec<Event>>,
) -> Result<Vec<Task<L>>, AllocError>
    requires few { length scripts.items ≤ 16 }
    ensures begun { IfOk result (λ tasks. shared.new.begun ≡ shared.old.begun) }
    ensures given { IfOk result (λ tasks. shared.new.given ≡ shared.old.given + length tasks.items) }
    ensures scripts { IfOk result (λ tasks. map (λ t. t.script) tasks.items ≡ scripts.items) }
    ensures fresh { IfOk result (λ tasks. AreTasks tasks.items) }
{
    let mut tasks = Vec::with_capacity(alloc, scripts.len())?;
    for script in scripts {
        let end = new_end(shared)?;
        let at = tasks.len();
        let (who, p) = (SENDER + at, at as u64);
        tasks.push(Task {
            who,
            p,
            end,
            script,
        })?;
    }
    Ok(tasks)
}
