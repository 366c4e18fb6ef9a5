//! Several producers behind one lock: two producers and a handler, each on a thread of its own, with an audit of the history
//! at the end.
#![tactic(auto)]

ghost use Rattle.std.specs.Prelude.{◌≡◌};
ghost use denote.Param.Send.{IsSync};

use dr_graph::GraphBuilder;
use dr_lock::{End, Exchange, LockedInlet, LockedOutlet, Recorded, Shared, audit, finish, halt};
use dr_meaning::{Handler, MAX_LIMIT, Mode};
use dr_seq::{Event, Size};
use dr_workers::{OpenGate, consume, produce};
use std::alloc::Global;
use std::marker::Brand;
use std::process::ExitCode;
use std::sync::Wait;
use std::sync::ledger::{Blank, Ledger};
use std::thread::{self, JoinHandle, Threads};

/// What one producer is to send: ten events with its number.
fn script(p: u64) -> [Event; 10] {
    [Event {
        first: p,
        second: 0,
    }; 10]
}

/// An end for each worker, and one that halts. `L` is a ledger: in proofs alone, it counts the calls through all ends. Code is over
/// any, and a proof has to name one, here `Brand`, with a `Blank` of 65 parts: one for each of up to 64 ends, and one for the lock.
#[derive(Drop)]
struct Ends<L: Ledger> {
    first: End<Event, L>,
    second: End<Event, L>,
    handler: End<Event, L>,
    halter: End<Event, L>,
}

/// Counts what it is shown.
#[derive(Drop)]
struct Counter {
    seen: u64,
}

impl Handler<Event> for Counter {
    ghost use Rattle.std.specs.Prelude.{◌≡◌, ◌+◌, ◌%◌, ◌^◌};

    ghost goes = { λ old event s end new. new.seen ≡ (old.seen + 1) % 2 ^ 64 };

    fn on_event(&mut self, _event: Event, _s: u64, _end: bool) {
        self.seen = self.seen.wrapping_add(1);
    }
}

/// A producer's work. Its end is handed back, since the history is had only once all ends are.
fn send<L: Exchange<Event>, R: Wait>(
    rt: &R,
    shared: &Shared<Event, L>,
    end: End<Event, L>,
    p: u64,
) -> End<Event, L> {
    let mut inlet = LockedInlet::new(rt, shared, end, p);
    let script = script(p);
    let _sent = produce(rt, &mut inlet, &OpenGate, 0, script.as_slice(), 4);
    inlet.into_end()
}

/// A handler's work: it ends once the exchange is halted and the handler has everything.
fn receive<L: Exchange<Event>, R: Wait>(
    rt: &R,
    shared: &Shared<Event, L>,
    end: End<Event, L>,
    h: usize,
) -> End<Event, L> {
    let mut outlet = LockedOutlet::new(rt, shared, end, h);
    let mut buffer = [Event::NONE; 4];
    let mut counter = Counter { seen: 0 };
    let _fault = consume(rt, &mut outlet, &OpenGate, 0, &mut counter, &mut buffer);
    outlet.into_end()
}

/// The end that a worker hands back, if its thread was started.
fn joined<L: Exchange<Event>, R: Threads, E: Drop>(
    rt: &R,
    worker: Result<JoinHandle<End<Event, L>>, E>,
) -> Option<End<Event, L>> {
    match worker {
        Ok(worker) => Some(worker.join(rt)),
        Err(_) => None,
    }
}

/// Starts a thread a worker, halts once the producers are joined, and gives back every end.
fn exchange<L: Exchange<Event> + Send + Sync, R: Threads + Wait + Sync>(
    rt: &R,
    shared: &Shared<Event, L>,
    ends: Ends<L>,
) -> Option<Ends<L>> {
    thread::scope(
        thread::scope_env(),
        rt,
        move |scope| -> Option<Ends<L>>
            requires { IsSync L.row }
        {
            let Ends {
                first,
                second,
                handler,
                mut halter,
            } = ends;
            let handler = scope.spawn(move || receive(rt, shared, handler, 0));
            if handler.is_err() {
                // Nobody would make room for the producers.
                halt(rt, shared, &mut halter);
            }
            let first = scope.spawn(move || send(rt, shared, first, 0));
            let second = scope.spawn(move || send(rt, shared, second, 1));
            let (first, second) = (joined(rt, first), joined(rt, second));
            halt(rt, shared, &mut halter);
            let (Some(first), Some(second), Some(handler)) = (first, second, joined(rt, handler))
            else {
                return None;
            };
            Some(Ends {
                first,
                second,
                handler,
                halter,
            })
        },
    )
}

/// The core of a ring of eight slots with two producers and one handler, and room for its history.
fn open(alloc: Global) -> Option<Recorded<Event>> {
    let mut builder = GraphBuilder::new(alloc);
    let _all = builder.handle_with(&["counter"]).ok()?;
    let graph = builder.build().ok()?;
    let size = Size::new(8).ok()?;
    Recorded::open(
        alloc,
        graph,
        size,
        Mode::Multi(2),
        MAX_LIMIT,
        Event::NONE,
        200,
        40,
    )
    .ok()
}

fn make_ends<L: Exchange<Event>>(shared: &mut Shared<Event, L>) -> Option<Ends<L>> {
    let (Some(first), Some(second), Some(handler), Some(halter)) = (
        shared.end(),
        shared.end(),
        shared.end(),
        shared.end(),
    ) else {
        return None;
    };
    Some(Ends {
        first,
        second,
        handler,
        halter,
    })
}

/// Lets the workers have an exchange behind a lock, and gives back every end.
fn played<L: Exchange<Event> + Send + Sync, R: Threads + Wait + Sync>(
    rt: &R,
    alloc: Global,
    shared: &mut Shared<Event, L>,
) -> Option<Vec<End<Event, L>>> {
    let ends = make_ends(shared)?;
    let Ends {
        first,
        second,
        handler,
        halter,
    } = exchange(rt, shared, ends)?;
    Vec::from_array(alloc, [first, second, handler, halter]).ok()
}

/// How many events the one list has that every handler received, by the audit of the history.
fn audited(alloc: Global, recorded: &Recorded<Event>) -> Option<usize> {
    let (one, two) = (script(0), script(1));
    let list = audit(alloc, recorded, &[one.as_slice(), two.as_slice()]).ok()?;
    Some(list.len())
}

/// Has an exchange behind a lock, and audits its history once all ends are back.
fn run<L: Exchange<Event> + Send + Sync, R: Threads + Wait + Sync>(
    rt: &R,
    alloc: Global,
    blank: Blank,
    recorded: Recorded<Event>,
) -> Option<usize>
    requires name { blank.name ≡ L.name }
    requires parts { blank.parts ≡ L.parts }
    requires ends { blank.parts ≡ 65 }
    requires begun { recorded.history ≡ L.begun }
{
    let mut shared = Shared::<Event, L>::new(recorded, blank);
    match played(rt, alloc, &mut shared) {
        Some(ends) => audited(alloc, &finish(shared, ends).ok()?),
        None => None,
    }
}

/// Opens an exchange and runs it.
fn count<R: Threads + Wait + Sync>(rt: &R, alloc: Global) -> Option<usize> {
    run::<Brand, R>(rt, alloc, Blank::new(65), open(alloc)?)
}

fn main(rt: HostRuntime) -> ExitCode {
    match count(&rt, rt.alloc()) {
        Some(count) => {
            let _printed = rt.println(&count);
            ExitCode::SUCCESS
        }
        None => ExitCode::FAILURE,
    }
}
