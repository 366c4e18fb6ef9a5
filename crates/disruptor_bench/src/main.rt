//! Measures the exchanges: events a second through a core on one thread, through a ring with a thread
//! for each end, over atomic words with one sender or over plain memory with one or several, by a run in
//! one call, and through a core behind a lock with a thread for each producer and each handler.
//!
//! `disruptor_bench TOPOLOGY SIZE SECONDS ROUNDS` runs a topology over a ring of SIZE slots for about
//! SECONDS in each of ROUNDS rounds, and prints the round in the middle:
//! `ours-EXCHANGE TOPOLOGY SIZE EVENTS SECONDS EVENTS_PER_SECOND`. `--list` prints the topologies, and
//! `--check` runs some of each kind for a round, and prints nothing that a clock decides.
#![tactic(auto)]

mod arguments;
mod behind_lock;
mod check;
mod fault;
mod in_one_call;
mod measured;
mod one_thread;
mod plain;
mod plain_senders;
mod sum;
mod threads;
mod topology;
mod width;

use arguments::{Order, Request, read_request};
use check::check;
use fault::Fault;
use measured::{Measured, Round, median};
use std::alloc::Global;
use std::env;
use std::process::ExitCode;
use std::rt::Runtime;
use std::sync::Wait;
use std::thread::Threads;
use topology::{Exchange, LISTED};

/// How many events go through between two looks at the clock, about.
const STRETCH: u64 = 65536;

/// More turns than any loop that waits for another thread or for the clock takes.
const MOST_TURNS: u64 = u64::MAX;

fn print_list(rt: &impl Runtime) -> Result<(), Fault> {
    for name in &LISTED {
        rt.println(*name)?;
    }
    Ok(())
}

/// One round over an exchange of its own with a thread for each end.
fn round(
    rt: &(impl Runtime + Threads + Wait + Sync + Copy + Send + 'static),
    alloc: Global,
    order: &Order,
) -> Result<Round, Fault> {
    match order.topology.exchange {
        Exchange::Core(_) => Err(Fault::USAGE),
        Exchange::Ring => threads::round(rt, alloc, order),
        Exchange::Plain(width) => plain::round(rt, alloc, order, width),
        Exchange::InOneCall => in_one_call::round(*rt, alloc, order),
        Exchange::PlainSenders(senders) => plain_senders::round(rt, alloc, order, senders),
        Exchange::Lock(producers) => behind_lock::round(rt, alloc, order, producers),
    }
}

fn add_rounds_of_threads(
    rt: &(impl Runtime + Threads + Wait + Sync + Copy + Send + 'static),
    alloc: Global,
    order: &Order,
    rounds: &mut Vec<Round>,
) -> Result<(), Fault> {
    for _ in 0..order.rounds {
        rounds.push(round(rt, alloc, order)?)?;
    }
    Ok(())
}

fn add_rounds(
    rt: &(impl Runtime + Threads + Wait + Sync + Copy + Send + 'static),
    alloc: Global,
    order: &Order,
    rounds: &mut Vec<Round>,
) -> Result<(), Fault> {
    match order.topology.exchange {
        Exchange::Core(width) => one_thread::rounds(rt, alloc, order, width, rounds),
        _ => add_rounds_of_threads(rt, alloc, order, rounds),
    }
}

/// The round in the middle.
fn measure(
    rt: &(impl Runtime + Threads + Wait + Sync + Copy + Send + 'static),
    alloc: Global,
    order: &Order,
) -> Result<Round, Fault> {
    let mut rounds = Vec::new(alloc);
    add_rounds(rt, alloc, order, &mut rounds)?;
    median(&mut rounds).ok_or(Fault::USAGE)
}

/// The round in the middle, as a line.
fn print_measured(
    rt: &(impl Runtime + Threads + Wait + Sync + Copy + Send + 'static),
    alloc: Global,
    order: Order,
) -> Result<(), Fault> {
    let median = measure(rt, alloc, &order)?;
    Ok(rt.println(Measured { order, median })?)
}

fn answer(
    rt: &(impl Runtime + Threads + Wait + Sync + Copy + Send + 'static),
    alloc: Global,
    request: Option<Request>,
) -> Result<(), Fault> {
    match request {
        Some(Request::List) => print_list(rt),
        Some(Request::Check) => check(rt, alloc),
        Some(Request::Measure(order)) => print_measured(rt, alloc, order),
        None => Err(Fault::USAGE),
    }
}

fn run(
    rt: &(impl Runtime + Alloc<A = Global> + Threads + Wait + Sync + Copy + Send + 'static),
) -> Result<(), Fault> {
    let words: Vec<String> = env::args(rt)?.skip(1).collect(rt.alloc())?;
    answer(rt, rt.alloc(), read_request(&words))
}

fn main(rt: HostRuntime) -> ExitCode {
    match run(&rt) {
        Ok(()) => ExitCode::SUCCESS,
        Err(fault) => {
            // Where even this cannot be written, the exit status alone says what went wrong.
            let _printed = rt.eprintln(&fault);
            ExitCode::from(fault.status)
        }
    }
}
