//! The worked runs, over events that own memory, played from one thread until the ends are brought together.

ghost use Rattle.dr_plain_senders.specs.Calls.Settling.{AreAllEnds};

use super::rows::RUNS;
use super::{Ends, open};
use crate::checks::check;
use crate::counted::{Counted, Counting, none_alive, some_events, use_some};
use crate::playing::{Run, check_run};
use std::alloc::Global;
use std::process::Abort;
use std::sync::Arc;

fn begin(rt: &impl Abort, alloc: Global, alive: &Arc<u64>, run: &Run) -> Counting<Ends<Counted>>
    ensures { AreAllEnds result.ends.senders.items result.ends.receivers.items result.ends.halter }
{
    let events = some_events(rt, alloc, alive, run.size);
    let ends = open(rt, alloc, run.shape, run.limit, run.senders, events);
    Counting::new(rt, ends, alive)
}

#[test]
fn worked_rows(rt: HostRuntime) {
    let alive = none_alive(&rt, rt.alloc());
    for run in &RUNS {
        let ends = begin(&rt, rt.alloc(), &alive, run);
        let events = check_run(&rt, ends, run).events;
        let events = events.expect(&rt, "events");
        use_some(&rt, &alive, events, &run.lying, 4, run.name);
    }
    check(&rt, Arc::strong_count(&alive), 1);
}
