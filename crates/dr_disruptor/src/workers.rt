//! Handlers' threads: how they are started, and what they give back.

ghost use Rattle.std.specs.Prelude.{◌≡◌, ◌<◌, [], All, IfErr, IfOk, OnOk, length, map};
ghost use Rattle.dr_disruptor.specs.Serving.{AreInBatches, GaveBack, HaveFirst, IsIdle, given_end, given_handler};

use crate::served::{Served, ServesPromise, serve};
use crate::way::Way;
use dr_meaning::{InPlaceHandler, InPlaceOutlet};
use dr_workers::Bell;
use std::alloc::{AllocError, Global};
use std::sync::{Arc, Wait};
use std::thread::{self, Promise, PromisedHandle, Threads, join_promised};

/// A handler's thread.
pub type Worker<O, H> = PromisedHandle<Served<O, H>, ServesPromise<O, H>>;

// Starts a thread for each handler with the end at its place. Where one cannot be started the earlier ones are in `started`,
// in which a thread has its place before it is started.
fn start_each<
    R: Threads + Wait + Copy + Send + 'static,
    O: InPlaceOutlet + Drop + Send + 'static,
    H: InPlaceHandler<O::Event> + Drop + Send + 'static,
>(
    rt: R,
    started: &mut Vec<Worker<O, H>>,
    outlets: Vec<O>,
    handlers: Vec<H>,
    bell: &Arc<Bell, Global>,
    way: Way,
) -> Result<(), AllocError>
    requires none { started.old.items ≡ [] }
    requires many { length outlets.items ≡ length handlers.items }
    requires idle { All (λ o. IsIdle (O.received o)) outlets.items }
    requires batch { 0 < way.batch }
    ensures given { HaveFirst outlets.items handlers.items started.new.items × OnOk result ((map given_end started.new.items ≡ outlets.items) × (map given_handler started.new.items ≡ handlers.items)) }
    ensures batches { OnOk result (AreInBatches way.batch started.new.items) }
{
    started.reserve(handlers.len())?;
    let mut handlers = handlers.into_iter();
    for outlet in outlets {
        let Some(handler) = handlers.next() else {
            unreachable!();
        };
        let bell = Arc::try_clone(bell)?;
        let Ok(worker) = thread::spawn_with(
            &rt,
            ServesPromise::of(&outlet, &handler, way.batch),
            move ||
                requires { IsIdle (O.received outlet) × (0 < way.batch) }
            { serve(&rt, outlet, handler, &bell, way) },
        ) else {
            return Err(AllocError);
        };
        started.push(worker)?;
    }
    Ok(())
}

/// Starts a thread for each handler with the end at its place. Where one cannot be started, those that were come back
/// as the error: the exchange is to be closed or halted, and then [`wait_for`] waits for them.
pub fn start<
    R: Threads + Wait + Copy + Send + 'static,
    O: InPlaceOutlet + Drop + Send + 'static,
    H: InPlaceHandler<O::Event> + Drop + Send + 'static,
>(
    rt: R,
    alloc: Global,
    outlets: Vec<O>,
    handlers: Vec<H>,
    bell: &Arc<Bell, Global>,
    way: Way,
) -> Result<Vec<Worker<O, H>>, Vec<Worker<O, H>>>
    requires many { length outlets.items ≡ length handlers.items }
    requires idle { All (λ o. IsIdle (O.received o)) outlets.items }
    requires batch { 0 < way.batch }
    // Each worker has the end and the handler of its place, and takes batches of at most the way's.
    ensures ends { IfOk result (λ workers. map given_end workers.items ≡ outlets.items) }
    ensures starts { IfOk result (λ workers. map given_handler workers.items ≡ handlers.items) }
    ensures batches { IfOk result (λ workers. AreInBatches way.batch workers.items) }
    // Where one cannot be started, workers come back that have the first ends and handlers, in order; that none is missing
    // you read in the code.
    ensures begun { IfErr result (λ workers. HaveFirst outlets.items handlers.items workers.items) }
{
    let mut started = Vec::new(alloc);
    match start_each(rt, &mut started, outlets, handlers, bell, way) {
        Ok(()) => Ok(started),
        Err(_) => Err(started),
    }
}

/// Waits for threads whose results nobody wants.
pub fn wait_for<R: Threads, T: Drop, P: Promise<T>>(rt: &R, threads: Vec<PromisedHandle<T, P>>) {
    for one in threads {
        let _result = one.join(rt);
    }
}

/// What each thread gives back, of an exchange that was closed or halted. Where memory runs out all threads end too,
/// and what they give back is lost.
pub fn join<R: Threads, O: InPlaceOutlet + Drop, H: InPlaceHandler<O::Event> + Drop>(
    rt: &R,
    workers: Vec<Worker<O, H>>,
) -> Result<Vec<Served<O, H>>, AllocError>
    // Each worker gave back what it promised, in their order.
    ensures { IfOk result (λ served. GaveBack O.kept O.received O.told O.saw O.does H.goes workers.items served.items) }
{
    match join_promised(rt, workers) {
        Ok(served) => Ok(served),
        Err(failed) => {
            wait_for(rt, failed.value);
            Err(AllocError)
        }
    }
}

/// What came back of handlers' workers: the ends and the handlers.
#[derive(Drop)]
pub struct Back<O, H> {
    pub outlets: Vec<O>,
    pub handlers: Vec<H>,
}

/// What handlers' workers gave back, each kind in a list of its own.
pub fn apart<O: Drop, H: Drop>(
    alloc: Global,
    served: Vec<Served<O, H>>,
) -> Result<Back<O, H>, AllocError>
    // Both lists are in the workers' order.
    ensures outlets { IfOk result (λ back. back.outlets.items ≡ map (λ s. s.outlet) served.items) }
    ensures handlers { IfOk result (λ back. back.handlers.items ≡ map (λ s. s.handler) served.items) }
{
    let many = served.len();
    let mut outlets = Vec::with_capacity(alloc, many)?;
    let mut handlers = Vec::with_capacity(alloc, many)?;
    for one in served {
        let Served { outlet, handler } = one;
        outlets.push(outlet)?;
        handlers.push(handler)?;
    }
    Ok(Back { outlets, handlers })
}
