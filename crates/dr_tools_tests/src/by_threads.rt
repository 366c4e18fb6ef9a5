//! Replays with threads, over the ring and behind the lock: workers that run at the same time, and workers
//! that are stopped.

use crate::ways::{Failed, Way, replay_text};
use dr_replay::ReplayFault;
use dr_seq::Size;
use dr_workers::{Gate, GateAnswer, OpenGate, WorkFault};
use std::alloc::Global;
use std::process::Abort;
use std::sync::Wait;
use std::sync::atomic::{AtomicU64, Ordering};
use std::test::Fail;
use std::thread::{self, Threads};

// Ten deposits, on the accounts 1 to 10.
const TEN: &str =
    "0,deposit,1,1\n0,deposit,2,2\n0,deposit,3,3\n0,deposit,4,4\n0,deposit,5,5\n0,deposit,6,6\n0,deposit,7,7\n0,deposit,8,8\n0,deposit,9,9\n0,deposit,10,10\n";

// A gate that holds journal and replica at their first batch until both have come.
#[derive(Drop)]
struct Both {
    journal: AtomicU64,
    replica: AtomicU64,
}

// Whether a flag shows, in time.
fn is_shown(flag: &AtomicU64) -> bool {
    for _ in 0..100_000_000u64 {
        if flag.load(Ordering::SeqCst) == 1 {
            return true;
        }
        thread::yield_now();
    }
    false
}

fn meet(own: &AtomicU64, other: &AtomicU64) -> GateAnswer {
    own.store(1, Ordering::SeqCst);
    if is_shown(other) {
        GateAnswer::Go
    } else {
        GateAnswer::Stop
    }
}

impl Gate for Both {
    fn pass(&self, who: usize, turn: u64) -> GateAnswer {
        match (who, turn) {
            (0, 0) => meet(&self.journal, &self.replica),
            (1, 0) => meet(&self.replica, &self.journal),
            _ => GateAnswer::Go,
        }
    }
}

fn check_both(
    rt: &(impl Threads + Wait + Sync + Abort),
    alloc: Global,
    by: Way,
    size: Size,
    wanted: &[u8],
) {
    let gate = Both {
        journal: AtomicU64::new(0),
        replica: AtomicU64::new(0),
    };
    let (output, result) = replay_text(rt, alloc, by, TEN, size, &gate);
    assert!(rt; result.is_ok() && output.as_slice() == wanted);
}

#[test]
fn both_at_once(rt: HostRuntime) -> Result<(), Fail> {
    let size = Size::new(2)?;
    let (wanted, result) = replay_text(&rt, rt.alloc(), Way::Plain, TEN, size, &OpenGate);
    assert!(rt; result.is_ok());
    check_both(&rt, rt.alloc(), Way::Lock, size, wanted.as_slice());
    check_both(&rt, rt.alloc(), Way::Ring, size, wanted.as_slice());
    Ok(())
}

// A gate that stops one worker at one of its turns, and counts how often it passes.
#[derive(Drop)]
struct StopsAt {
    who: usize,
    turn: u64,
    passed: AtomicU64,
}

impl Gate for StopsAt {
    fn pass(&self, who: usize, turn: u64) -> GateAnswer {
        if who != self.who {
            return GateAnswer::Go;
        }
        self.passed.fetch_add(1, Ordering::SeqCst);
        if turn == self.turn {
            GateAnswer::Stop
        } else {
            GateAnswer::Go
        }
    }
}

impl StopsAt {
    fn has_passed(&self, times: u64) -> bool {
        self.passed.load(Ordering::SeqCst) == times
    }
}

fn stops_at(who: usize, turn: u64) -> StopsAt {
    StopsAt {
        who,
        turn,
        passed: AtomicU64::new(0),
    }
}

fn is_stopped(output: &[u8], ended: &Result<(), Failed>, at: usize) -> bool {
    let is_answered =
        matches!(ended, Err(Failed::Replay(ReplayFault::Worker { who, fault: WorkFault::Stopped })) if *who == at);
    is_answered && output.is_empty()
}

// A replay writes nothing, and answers that this worker was stopped.
fn check_stopped(
    rt: &(impl Threads + Wait + Sync + Abort),
    alloc: Global,
    by: Way,
    slots: u64,
    gate: &(impl Gate + Sync),
    at: usize,
) {
    let size = Size::new(slots).expect(rt, "a size");
    let (output, result) = replay_text(rt, alloc, by, TEN, size, gate);
    assert!(rt; is_stopped(output.as_slice(), &result, at));
}

fn check_one(
    rt: &(impl Threads + Wait + Sync + Abort),
    alloc: Global,
    by: Way,
    at: usize,
    turn: u64,
) {
    let gate = stops_at(at, turn);
    check_stopped(rt, alloc, by, 2, &gate, at);
    assert!(rt; gate.has_passed(turn.wrapping_add(1)));
}

// Which worker is stopped, at which of its turns.
const ONE: [(usize, u64); 5] = [(0, 0), (0, 1), (1, 1), (2, 1), (16, 1)];

#[test]
fn workers_that_are_stopped(rt: HostRuntime) {
    for (at, turn) in &ONE {
        check_one(&rt, rt.alloc(), Way::Lock, *at, *turn);
        check_one(&rt, rt.alloc(), Way::Ring, *at, *turn);
    }
}

fn check_claims(
    rt: &(impl Threads + Wait + Sync + Abort),
    alloc: Global,
    by: Way,
    slots: u64,
    claims: u64,
) {
    let size = Size::new(slots).expect(rt, "a size");
    let gate = stops_at(16, u64::MAX);
    let (_, result) = replay_text(rt, alloc, by, TEN, size, &gate);
    assert!(rt; result.is_ok() && gate.has_passed(claims));
}

// How many claims the ten deposits take, by how many slots there are.
const CLAIMS: [(u64, u64); 4] = [(1, 10), (2, 5), (4, 3), (16, 1)];

#[test]
fn claims_of_all_slots(rt: HostRuntime) {
    for (slots, claims) in &CLAIMS {
        check_claims(&rt, rt.alloc(), Way::Lock, *slots, *claims);
        check_claims(&rt, rt.alloc(), Way::Ring, *slots, *claims);
    }
}

// A gate that stops all workers from a number on.
#[derive(Drop)]
struct StopsFrom(usize);

impl Gate for StopsFrom {
    fn pass(&self, who: usize, _turn: u64) -> GateAnswer {
        if who >= self.0 {
            GateAnswer::Stop
        } else {
            GateAnswer::Go
        }
    }
}

#[test]
fn several_that_are_stopped(rt: HostRuntime) {
    for least in 0..3 {
        let gate = StopsFrom(least);
        check_stopped(&rt, rt.alloc(), Way::Lock, 4, &gate, least);
        check_stopped(&rt, rt.alloc(), Way::Ring, 4, &gate, least);
    }
}

// A gate that stops two workers.
#[derive(Drop)]
struct StopsTwo(StopsAt, StopsAt);

impl Gate for StopsTwo {
    fn pass(&self, who: usize, turn: u64) -> GateAnswer {
        match self.0.pass(who, turn) {
            GateAnswer::Stop => GateAnswer::Stop,
            GateAnswer::Go => self.1.pass(who, turn),
        }
    }
}

fn check_least(
    rt: &(impl Threads + Wait + Sync + Abort),
    alloc: Global,
    by: Way,
    who: usize,
    least: usize,
) {
    let gate = StopsTwo(stops_at(who, 0), stops_at(least, 4));
    check_stopped(rt, alloc, by, 2, &gate, least);
    assert!(rt; gate.0.has_passed(1) && gate.1.has_passed(5));
}

// Two workers that are stopped, the least of them last.
const TWO: [(usize, usize); 2] = [(16, 0), (2, 1)];

// The least worker is answered, also where it was stopped long after the other.
#[test]
fn two_that_are_stopped(rt: HostRuntime) {
    for (who, least) in &TWO {
        check_least(&rt, rt.alloc(), Way::Lock, *who, *least);
        check_least(&rt, rt.alloc(), Way::Ring, *who, *least);
    }
}
