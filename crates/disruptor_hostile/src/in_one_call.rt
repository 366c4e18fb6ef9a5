//! Runs in one call, of each kind. Where memory or a thread is refused, they answer so.

use crate::core_calls::word;
use crate::fault::Fault;
use crate::graphs::{TWO, graph};
use crate::telling::Lines;
use dr_disruptor::{
    Feed, InPlaceInlet, LiveSender, RunOutcome, SeveralSender, WaitStrategy, Way, run, run_here,
    run_senders,
};
use dr_disruptor_lock::run_locked;
use dr_graph::Graph;
use dr_meaning::{InPlaceHandler, Refusal};
use dr_seq::{Event, Size};
use std::alloc::{AllocError, Global};
use std::fmt::Debug;
use std::sync::Wait;
use std::thread::Threads;

/// Which run is made, with two handlers side by side.
#[derive(Clone, Copy)]
pub enum OfRun {
    /// One sender over a ring.
    One,
    /// A sender for each of two closures over a ring.
    Several,
    /// One sender over a ring, all on this thread.
    Here,
    /// A sender for each of two scripts, behind a lock.
    Locked,
}

/// What comes next of each of two senders, which count on from 0 and from 100, and whether each came in its order.
#[derive(Clone, Copy, Debug)]
struct Merged {
    low: u64,
    high: u64,
    in_order: bool,
}

impl InPlaceHandler<Event> for Merged {
    fn on_event_in_place(&mut self, event: &Event, _s: u64, _end: bool) {
        let number = event.first;
        if number < 100 {
            self.in_order = self.in_order && number == self.low;
            self.low = self.low.wrapping_add(1);
        } else {
            self.in_order = self.in_order && number == self.high;
            self.high = self.high.wrapping_add(1);
        }
    }
}

/// What came of two handlers over a ring, with what its sender, or each sender, answered.
type Ringed<S, A> = RunOutcome<Event, Vec<Merged>, S, A>;

/// A handler for each of two that stand side by side.
fn two_handlers(alloc: Global) -> Result<Vec<Merged>, AllocError> {
    let fresh = Merged {
        low: 0,
        high: 100,
        in_order: true,
    };
    vec![in alloc; fresh; 2]
}

/// How many each sender sends: more than the exchange has slots, so a sender waits for each handler.
const SENT: u64 = 3;

/// Sends three numbers from 0 on.
fn ran_by_one<R: Threads + Wait + Copy + Send + 'static>(
    rt: R,
    alloc: Global,
    graph: &Graph,
) -> Result<Ringed<dr_plain::Settled<Event>, Result<(), Refusal>>, Fault> {
    let size = Size::new(2)?;
    let events = vec![in alloc; Event::NONE; 2]?;
    let handlers = two_handlers(alloc)?;
    let way = Way::by(WaitStrategy::Yielding);
    let ran = run(rt, alloc, graph, size, events, handlers, way, |sender| {
        sender.publish_each(SENT, 1, |event: &mut Event, k| *event = word(k))
    })?;
    Ok(ran)
}

/// Sends three numbers from 0 on, by whichever sender.
#[derive(Clone, Copy)]
struct Three;

impl Feed<Event> for Three {
    ghost use Rattle.std.specs.Prelude.{⊤};

    type Answer = Result<(), Refusal>;

    ghost gives = { λ three answer old new. ⊤ };

    fn feed<R: Wait + Copy, I: InPlaceInlet<Event = Event>>(
        self,
        sender: &mut LiveSender<R, I>,
    ) -> Result<(), Refusal> {
        sender.publish_each(SENT, 1, |event: &mut Event, k| *event = word(k))
    }
}

fn ran_here<R: Wait + Copy>(
    rt: R,
    alloc: Global,
    graph: &Graph,
) -> Result<Ringed<dr_plain::Settled<Event>, Result<(), Refusal>>, Fault> {
    let size = Size::new(2)?;
    let events = vec![in alloc; Event::NONE; 2]?;
    let handlers = two_handlers(alloc)?;
    let way = Way::by(WaitStrategy::Yielding);
    let ran = run_here(rt, alloc, graph, size, events, handlers, way, Three)?;
    Ok(ran)
}

/// Sends three numbers by each of two senders, which count on from 0 and from 100.
fn ran_by_several<R: Threads + Wait + Copy + Send + 'static>(
    rt: R,
    alloc: Global,
    graph: &Graph,
) -> Result<Ringed<dr_plain_senders::Settled<Event>, Vec<Result<(), Refusal>>>, Fault> {
    let size = Size::new(2)?;
    let events = vec![in alloc; Event::NONE; 2]?;
    let handlers = two_handlers(alloc)?;
    let mut feeds = Vec::new(alloc);
    for first in [0u64, 100] {
        feeds.push(move |sender: &mut SeveralSender<R, Event>| {
            sender.publish_each(SENT, 1, |event: &mut Event, k| {
                *event = word(k.wrapping_add(first))
            })
        })?;
    }
    let way = Way::by(WaitStrategy::Yielding);
    let ran = run_senders(rt, alloc, graph, size, events, handlers, way, feeds)?;
    Ok(ran)
}

fn ran_by_lock<R: Threads + Wait + Sync>(
    rt: &R,
    alloc: Global,
    graph: Graph,
) -> Result<dr_disruptor_lock::RunOutcome<Merged>, Fault> {
    let size = Size::new(2)?;
    let handlers = two_handlers(alloc)?;
    let low = vec![in alloc; word(0), word(1), word(2)]?;
    let high = vec![in alloc; word(100), word(101), word(102)]?;
    let scripts = vec![in alloc; low, high]?;
    let way = WaitStrategy::Yielding;
    let ran = run_locked(rt, alloc, graph, size, handlers, scripts, way)?;
    Ok(ran)
}

fn tell_each<R: Print, T: Copy + Debug>(out: &Lines<R>, values: &[T]) {
    for value in values {
        out.value(*value);
    }
}

fn tell_ran<R: Print>(
    out: &Lines<R>,
    claimed: u64,
    sent: &[Result<(), Refusal>],
    handlers: &[Merged],
) {
    out.about("claimed", claimed);
    tell_each(out, sent);
    tell_each(out, handlers);
}

fn tell_one<R: Print>(
    out: &Lines<R>,
    ran: Result<Ringed<dr_plain::Settled<Event>, Result<(), Refusal>>, Fault>,
) {
    match ran {
        Ok(ran) => tell_ran(
            out,
            ran.settled.claimed(),
            &[ran.sent],
            ran.handlers.as_slice(),
        ),
        Err(fault) => out.end(fault),
    }
}

fn tell_several<R: Print>(
    out: &Lines<R>,
    ran: Result<Ringed<dr_plain_senders::Settled<Event>, Vec<Result<(), Refusal>>>, Fault>,
) {
    match ran {
        Ok(ran) => tell_ran(
            out,
            ran.settled.claimed(),
            ran.sent.as_slice(),
            ran.handlers.as_slice(),
        ),
        Err(fault) => out.end(fault),
    }
}

fn tell_finished<R: Print>(out: &Lines<R>, ran: dr_disruptor_lock::RunOutcome<Merged>) {
    match ran.finished() {
        Ok((handlers, list)) => {
            out.about("listed", list.len());
            tell_each(out, handlers.as_slice());
        }
        Err(fault) => out.end(Fault::from(fault)),
    }
}

fn tell_locked<R: Print + Threads + Wait + Sync>(out: &Lines<R>, alloc: Global, graph: Graph) {
    match ran_by_lock(out.rt, alloc, graph) {
        Ok(ran) => tell_finished(out, ran),
        Err(fault) => out.end(fault),
    }
}

fn tell_over<R: Print + Threads + Wait + Copy + Send + Sync + 'static>(
    out: &Lines<R>,
    alloc: Global,
    graph: Graph,
    of: OfRun,
) {
    match of {
        OfRun::One => tell_one(out, ran_by_one(*out.rt, alloc, &graph)),
        OfRun::Here => tell_one(out, ran_here(*out.rt, alloc, &graph)),
        OfRun::Several => tell_several(out, ran_by_several(*out.rt, alloc, &graph)),
        OfRun::Locked => tell_locked(out, alloc, graph),
    }
}

/// Makes a run of this kind, through two handlers side by side.
pub fn tell_run<R: Print + Threads + Wait + Copy + Send + Sync + 'static>(
    out: &Lines<R>,
    alloc: Global,
    of: OfRun,
) {
    match graph(alloc, &TWO, &[]) {
        Ok(graph) => tell_over(out, alloc, graph, of),
        Err(fault) => out.end(Fault::from(fault)),
    }
}
