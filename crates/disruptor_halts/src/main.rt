//! Exchanges over each ring and behind the lock, with a thread for each end, whose claims, polls,
//! completions, retirements and halt fall at random times.
//!
//! `disruptor_halts SEED ROUNDS` runs so many of each, with graphs, sizes and turns of their ends that
//! the seed gives. What each handler received is compared with what was published, which behind the
//! lock is the list of the audit. At last it prints how many rounds there were, and on standard error
//! how many events, which depends on how the threads ran.
#![tactic(auto)]

mod by_lock;
mod ends;
mod fault;
mod graphs;
mod over_ring;
mod parties;
mod random;
mod receiving;
mod round;
mod sending;
mod signs;
mod stretch;
mod told;

use fault::Fault;
use random::Random;
use std::alloc::Global;
use std::env;
use std::process::ExitCode;
use std::rt::Runtime;
use std::sync::Wait;
use std::thread::Threads;
use told::Told;

/// More turns than any loop takes that waits for another thread.
const MOST_TURNS: u64 = u64::MAX;

/// Over which exchange rounds are run.
#[derive(Clone, Copy)]
enum Way {
    Ring,
    Plain,
    Senders,
    Lock,
}

impl Way {
    fn name(self) -> &'static str {
        match self {
            Way::Ring => "ring",
            Way::Plain => "plain",
            Way::Senders => "senders",
            Way::Lock => "lock",
        }
    }

    fn round<R: Threads + Wait + Sync>(
        self,
        rt: &R,
        alloc: Global,
        random: &mut Random,
    ) -> Result<Told, Fault> {
        match self {
            Way::Ring => over_ring::one_sender(rt, alloc, random),
            Way::Plain => over_ring::over_plain_memory(rt, alloc, random),
            Way::Senders => over_ring::several_senders(rt, alloc, random),
            Way::Lock => by_lock::round(rt, alloc, random),
        }
    }

    fn rounds<R: Threads + Wait + Sync>(
        self,
        rt: &R,
        alloc: Global,
        seed: u64,
        count: u64,
    ) -> Result<Told, Fault> {
        let mut random = Random::new(seed);
        let mut all = Told::NONE;
        for _ in 0..count {
            all = all.with(self.round(rt, alloc, &mut random)?);
        }
        Ok(all)
    }
}

fn number(word: &str) -> Result<u64, Fault> {
    match word.parse() {
        Ok(number) => Ok(number),
        Err(_) => Err(Fault::Usage),
    }
}

/// The seed, and how many rounds.
fn numbers(words: &[String]) -> Result<(u64, u64), Fault> {
    match words {
        [seed, count] => Ok((number(seed.as_str())?, number(count.as_str())?)),
        _ => Err(Fault::Usage),
    }
}

/// The seed and how many rounds, as the command line has them.
fn asked<R: Runtime + Alloc<A = Global>>(rt: &R) -> Result<(u64, u64), Fault> {
    let words: Vec<String> = env::args(rt)?.skip(1).collect(rt.alloc())?;
    numbers(words.as_slice())
}

/// Runs rounds over one exchange, and tells what they came to.
fn run_way<R: Runtime + Threads + Wait + Sync>(
    rt: &R,
    alloc: Global,
    way: Way,
    seed: u64,
    count: u64,
) -> Result<(), Fault> {
    let told = way.rounds(rt, alloc, seed, count)?;
    let name = way.name();
    eprintln!(rt; "by {name} {told}")?;
    Ok(())
}

fn run_all<R: Runtime + Threads + Wait + Sync>(
    rt: &R,
    alloc: Global,
    seed: u64,
    count: u64,
) -> Result<(), Fault> {
    for way in [Way::Ring, Way::Plain, Way::Senders, Way::Lock] {
        run_way(rt, alloc, way, seed, count)?;
    }
    Ok(())
}

fn run<R: Runtime + Alloc<A = Global> + Threads + Wait + Sync>(rt: &R) -> Result<(), Fault> {
    let (seed, count) = asked(rt)?;
    run_all(rt, rt.alloc(), seed, count)?;
    println!(rt; "{count} rounds")?;
    Ok(())
}

fn main(rt: HostRuntime) -> ExitCode {
    match run(&rt) {
        Ok(()) => ExitCode::SUCCESS,
        Err(fault) => {
            // Where even this cannot be written, the status tells it.
            let _printed = rt.eprintln(&fault);
            ExitCode::from(fault.status())
        }
    }
}
