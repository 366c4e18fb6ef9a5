//! Calls of the library, each answer a line, for runs in which requests for memory, or starts of threads, are refused.
//!
//! `disruptor_hostile CASE` makes the calls of a case, and `disruptor_hostile all` those of every case.
//! Where a call answers that memory ran out, or a thread was lacking, a line `no-memory` says so, and it is made again.
#![tactic(auto)]

mod again;
mod auditing;
mod building;
mod by_traits;
mod cases;
mod core_calls;
mod fault;
mod graphs;
mod in_one_call;
mod locking;
mod parts;
mod plain_calls;
mod plain_dropping;
mod plain_rings;
mod plain_senders_calls;
mod plain_senders_dropping;
mod plain_senders_making;
mod recording;
mod ring_calls;
mod settling;
mod taking_none;
mod telling;

use cases::{CASES, Case, case_of, tell};
use fault::Fault;
use std::alloc::Global;
use std::env;
use std::process::ExitCode;
use std::rt::Runtime;
use std::sync::Wait;
use std::thread::Threads;

fn tell_named<R: Print + Threads + Wait + Copy + Send + Sync + 'static>(
    rt: &R,
    alloc: Global,
    name: &str,
    case: Case,
) -> Result<(), Fault> {
    println!(rt; "case {name}")?;
    tell(rt, alloc, case)
}

fn tell_all<R: Print + Threads + Wait + Copy + Send + Sync + 'static>(
    rt: &R,
    alloc: Global,
) -> Result<(), Fault> {
    for (name, case) in &CASES {
        tell_named(rt, alloc, *name, *case)?;
    }
    Ok(())
}

fn tell_word<R: Print + Threads + Wait + Copy + Send + Sync + 'static>(
    rt: &R,
    alloc: Global,
    word: &str,
) -> Result<(), Fault> {
    if word == "all" {
        return tell_all(rt, alloc);
    }
    match case_of(word) {
        Some(case) => tell(rt, alloc, case),
        None => Err(Fault::Usage),
    }
}

fn run<R: Runtime + Alloc<A = Global> + Threads + Wait + Copy + Send + Sync + 'static>(
    rt: &R,
) -> Result<(), Fault> {
    let alloc = rt.alloc();
    let words: Vec<String> = env::args(rt)?.skip(1).collect(alloc)?;
    match words.as_slice() {
        [word] => tell_word(rt, alloc, word.as_str()),
        _ => Err(Fault::Usage),
    }
}

fn main(rt: HostRuntime) -> ExitCode {
    match run(&rt) {
        Ok(()) => ExitCode::SUCCESS,
        Err(fault) => {
            // Where even this cannot be written, the status tells it.
            let _printed = rt.eprintln(&fault);
            ExitCode::from(fault.status())
        }
    }
}
