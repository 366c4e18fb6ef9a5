//! How the threads over a ring wait, and how long events take.
//!
//! `disruptor_waits lone STRATEGY EVENTS` sends events one by one through two handlers of which the second follows
//! the first, each once the second took the one before and after a pause of changing length, so that it finds the
//! threads awake, asleep or on their way. None may take more than a second, and how long they took stands on standard
//! error. `one-slot EVENTS MICROS` sends them over a ring of one slot, whose workers park: each once the last handler
//! completed the one before, and none may take longer until the sender sees that.
//!
//! `rate STRATEGY THOUSANDS CUT` sends so many thousand events through handlers that do nothing, as fast as they take
//! them, in claims of up to CUT. How long that took stands on standard error.
//!
//! `idle STRATEGY SECONDS` leaves the same handlers without an event for so long, so that you can measure what that costs.
//!
//! `latency EXCHANGE STRATEGY EVENTS NANOS` sends an event each so many nanoseconds through `ring`, `plain` or
//! `plain-senders`, and prints how many nanoseconds each took through three handlers. `--check` runs a little of each but
//! `idle`, and prints nothing that a clock decides. A strategy is `yielding`, `spinning` or `parking`.
#![tactic(auto)]

mod clock;
mod fault;
mod idle;
mod latency;
mod lone;
mod one_slot;
mod pair;
mod rate;
mod runs;
mod stopwatch;
mod times;
mod words;

use clock::micros_since;
use dr_workers::WaitStrategy;
use fault::Fault;
use std::alloc::Global;
use std::env;
use std::num::NonZeroU64;
use std::process::ExitCode;
use std::rt::Runtime;
use std::sync::Wait;
use std::thread::Threads;
use std::time::Instant;
use times::Times;
use words::{Exchange, STRATEGIES, Task, read};

/// How many microseconds a lone event may take.
const MOST: u64 = 1_000_000;

// Tells how long events took, and whether none took longer than this.
fn judge<R: Runtime>(rt: &R, times: Times, most: u64) -> Result<(), Fault> {
    eprintln!(rt; "{times}")?;
    if times.are_above(most) {
        return Err(Fault::Late);
    }
    Ok(())
}

fn send_lone<R: Runtime + Threads + Wait + Copy + Send + 'static>(
    rt: R,
    alloc: Global,
    strategy: WaitStrategy,
    events: u64,
) -> Result<(), Fault> {
    let times = lone::send(rt, alloc, strategy, events)?;
    judge(&rt, times, MOST)?;
    println!(rt; "{events} events, each taken in time")?;
    Ok(())
}

fn send_one_slot<R: Runtime + Threads + Wait + Copy + Send + 'static>(
    rt: R,
    alloc: Global,
    events: u64,
    micros: u64,
) -> Result<(), Fault> {
    let times = one_slot::send(rt, alloc, events)?;
    judge(&rt, times, micros)?;
    println!(rt; "each was completed in time")?;
    Ok(())
}

// Tells how long it took since then.
fn tell_time<R: Runtime>(rt: &R, begun: Instant) -> Result<(), Fault> {
    let micros = micros_since(rt, Some(begun)).unwrap_or(u64::MAX);
    eprintln!(rt; "in {micros} microseconds")?;
    Ok(())
}

fn send_fast<R: Runtime + Threads + Wait + Copy + Send + 'static>(
    rt: R,
    alloc: Global,
    strategy: WaitStrategy,
    thousands: u64,
    cut: NonZeroU64,
) -> Result<(), Fault> {
    let begun = Instant::now(&rt)?;
    rate::send(rt, alloc, strategy, thousands, cut)?;
    tell_time(&rt, begun)?;
    println!(rt; "{thousands} thousand events went through")?;
    Ok(())
}

fn send_fast_by_each<R: Runtime + Threads + Wait + Copy + Send + 'static>(
    rt: R,
    alloc: Global,
) -> Result<(), Fault> {
    let cut = NonZeroU64::MIN;
    for strategy in STRATEGIES {
        send_fast(rt, alloc, strategy, 10, cut)?;
    }
    Ok(())
}

// By each exchange, and prints nothing that a clock decides.
fn check_latency<R: Runtime + Threads + Wait + Copy + Send + 'static>(
    rt: R,
    alloc: Global,
) -> Result<(), Fault> {
    let events = latency::CHECKED;
    for exchange in Exchange::ALL {
        latency::check(rt, alloc, exchange)?;
        println!(rt; "{exchange}: {events} events by each strategy")?;
    }
    Ok(())
}

fn check<R: Runtime + Threads + Wait + Copy + Send + 'static>(
    rt: R,
    alloc: Global,
) -> Result<(), Fault> {
    send_lone(rt, alloc, WaitStrategy::Parking, 3000)?;
    send_one_slot(rt, alloc, 10_000, MOST)?;
    send_fast_by_each(rt, alloc)?;
    check_latency(rt, alloc)
}

fn asked<R: Runtime + Alloc<A = Global>>(rt: &R) -> Result<Task, Fault> {
    let words: Vec<String> = env::args(rt)?.skip(1).collect(rt.alloc())?;
    read(words.as_slice()).ok_or(Fault::Usage)
}

fn do_task<R: Runtime + Threads + Wait + Copy + Send + 'static>(
    rt: R,
    alloc: Global,
    task: Task,
) -> Result<(), Fault> {
    match task {
        Task::Check => check(rt, alloc),
        Task::Lone { strategy, events } => send_lone(rt, alloc, strategy, events),
        Task::OneSlot { events, micros } => send_one_slot(rt, alloc, events, micros),
        Task::Rate {
            strategy,
            thousands,
            cut,
        } => send_fast(rt, alloc, strategy, thousands, cut),
        Task::Idle { strategy, seconds } => idle::wait(rt, alloc, strategy, seconds),
        Task::Latency(order) => latency::measure(rt, alloc, order),
    }
}

fn run<R: Runtime + Alloc<A = Global> + Threads + Wait + Copy + Send + 'static>(
    rt: R,
) -> Result<(), Fault> {
    let task = asked(&rt)?;
    do_task(rt, rt.alloc(), task)
}

fn main(rt: HostRuntime) -> ExitCode {
    match run(rt) {
        Ok(()) => ExitCode::SUCCESS,
        Err(fault) => {
            // Where even this cannot be written, the status tells it.
            let _printed = rt.eprintln(&fault);
            ExitCode::from(fault.status())
        }
    }
}
