//! Workers over ends of the tests' own, which no exchange stands behind.

ghost use Rattle.std.specs.Prelude.{◌<◌};

use crate::checks::check;
use crate::histories::word;
use crate::ringing::{check_strokes, hearing, no_strokes};
use dr_meaning::{ByValue, Claimed, Handler, Inlet, Outlet, Polled, Refusal, Trouble};
use dr_seq::{Event, Size};
use dr_workers::{
    Ended, Gate, GateAnswer, OpenGate, Produced, Spinning, Waiting, WorkFault, WorkerFault,
    consume, first_fault, produce, serve,
};
use std::process::Abort;
use std::sync::Wait;
use std::sync::atomic::{AtomicU64, Ordering};

/// What an end is short of.
#[derive(Clone, Copy, PartialEq, Eq)]
pub enum Lacks {
    /// Each second write or publication finds no memory.
    Memory,
    /// No claim finds memory.
    MemoryForClaims,
    /// Room: two claims find it, and then none until it was asked two hundred times and some.
    Room,
}

/// Which call of the sequence 3 is refused, however often it is made.
#[derive(Clone, Copy, PartialEq, Eq)]
enum Refuses {
    Nothing,
    ItsWrite,
    ItsPublication,
}

/// An end with room for so many events.
#[derive(Drop)]
pub struct Scarce {
    lacks: Lacks,
    refuses: Refuses,
    calls: u64,
    refusals: u64,
    claimed: u64,
    pub published: u64,
    room: u64,
}

impl Scarce {
    fn finds_memory(&mut self) -> bool {
        self.calls = self.calls.wrapping_add(1);
        self.lacks != Lacks::Memory || self.calls % 2 == 0
    }

    fn finds_room(&mut self) -> bool {
        if self.lacks != Lacks::Room || self.claimed % 2 == 1 || self.refusals == 204 {
            self.refusals = 0;
            return true;
        }
        self.refusals = self.refusals.wrapping_add(1);
        false
    }
}

impl Inlet<Event> for Scarce {
    ghost kept = { λ _. tt };

    fn try_claim(&mut self, n: u64) -> Result<Claimed, Trouble> {
        if n == 0 || n > Size::MAX {
            return Err(Trouble::Refused(Refusal::BadCount));
        }
        if self.lacks == Lacks::MemoryForClaims {
            return Err(Trouble::Memory);
        }
        if !self.finds_room() {
            return Err(Trouble::Refused(Refusal::NoRoom));
        }
        if self.room > 1000 || self.claimed > self.room || n > self.room - self.claimed {
            return Err(Trouble::Refused(Refusal::Exhausted));
        }
        let lo = self.claimed;
        self.claimed += n;
        Ok(Claimed {
            lo,
            hi: lo + (n - 1),
        })
    }

    fn write(&mut self, s: u64, _event: Event) -> Result<(), Trouble> {
        if s >= 1 << 62 {
            return Err(Trouble::Refused(Refusal::NotClaimed));
        }
        if self.refuses == Refuses::ItsWrite && s == 3 {
            return Err(Trouble::Refused(Refusal::AlreadyPublished));
        }
        if self.finds_memory() {
            Ok(())
        } else {
            Err(Trouble::Memory)
        }
    }

    fn publish(&mut self, lo: u64, hi: u64) -> Result<(), Trouble> {
        if lo > hi {
            return Err(Trouble::Refused(Refusal::BadCount));
        }
        if hi >= 1 << 62 {
            return Err(Trouble::Refused(Refusal::NotClaimed));
        }
        if self.refuses == Refuses::ItsPublication && hi == 3 {
            return Err(Trouble::Refused(Refusal::NotClaimed));
        }
        if self.finds_memory() {
            self.published = self.published.wrapping_add(1);
            Ok(())
        } else {
            Err(Trouble::Memory)
        }
    }
}

pub fn scarce_end(lacks: Lacks, room: u64) -> Scarce {
    Scarce {
        lacks,
        refuses: Refuses::Nothing,
        calls: 0,
        refusals: 0,
        claimed: 0,
        published: 0,
        room,
    }
}

// A gate that stops a worker at its second turn, and counts how often it is passed.
#[derive(Drop)]
struct StopsAtOne {
    passed: AtomicU64,
}

impl Gate for StopsAtOne {
    ghost use Rattle.std.specs.Prelude.{◌≡◌};

    ghost must_stop = { λ gate who turn. turn ≡ 1 };

    fn pass(&self, _who: usize, turn: u64) -> GateAnswer {
        self.passed.fetch_add(1, Ordering::SeqCst);
        if turn == 1 {
            GateAnswer::Stop
        } else {
            GateAnswer::Go
        }
    }
}

fn stops_at_one() -> StopsAtOne {
    StopsAtOne {
        passed: AtomicU64::new(0),
    }
}

pub const SCRIPT: [Event; 5] = [Event::NONE; 5];

// What the worker of a producer answers that sends the script through an end, at most so many events a claim.
fn check_sent<R: Wait + Abort, G: Gate>(
    rt: &R,
    inlet: &mut Scarce,
    gate: &G,
    cut: u64,
    sent: u64,
    fault: Option<WorkFault>,
)
    requires { 0 < cut }
{
    let wanted = Produced { sent, fault };
    check(rt, produce(rt, inlet, gate, 16, &SCRIPT, cut), wanted);
}

#[test]
fn producers(rt: HostRuntime) {
    let mut inlet = scarce_end(Lacks::Memory, 5);
    check_sent(&rt, &mut inlet, &OpenGate, 2, 5, None);
    // Five writes and three publications, each made twice.
    check(&rt, inlet.calls, 16);
    let refused = Some(WorkFault::Refused(Refusal::Exhausted));
    let mut small = scarce_end(Lacks::Memory, 4);
    check_sent(&rt, &mut small, &OpenGate, 2, 4, refused);
    let mut hoarding = scarce_end(Lacks::MemoryForClaims, 5);
    check_sent(&rt, &mut hoarding, &OpenGate, 2, 0, Some(WorkFault::Memory));
}

// An end that refuses a call in its second claim ends the work there: it was asked so often for memory, and published once.
fn check_refused<R: Wait + Abort>(rt: &R, refuses: Refuses, refusal: Refusal, calls: u64) {
    let mut inlet = scarce_end(Lacks::Memory, 5);
    inlet.refuses = refuses;
    let refused = Some(WorkFault::Refused(refusal));
    check_sent(rt, &mut inlet, &OpenGate, 2, 2, refused);
    let seen = [inlet.claimed, inlet.calls, inlet.published];
    check(rt, seen, [4, calls, 1]);
}

#[test]
fn refused_producers(rt: HostRuntime) {
    check_refused(&rt, Refuses::ItsWrite, Refusal::AlreadyPublished, 8);
    check_refused(&rt, Refuses::ItsPublication, Refusal::NotClaimed, 10);
}

#[test]
fn stopped_producers(rt: HostRuntime) {
    let gate = stops_at_one();
    let stopped = Some(WorkFault::Stopped);
    let mut large = scarce_end(Lacks::Memory, 5);
    check_sent(&rt, &mut large, &gate, 1, 5, stopped);
    check(&rt, gate.passed.load(Ordering::SeqCst), 2);
    // A refusal does not hide that it was stopped.
    let mut small = scarce_end(Lacks::Memory, 4);
    check_sent(&rt, &mut small, &gate, 1, 4, stopped);
    check(&rt, gate.passed.load(Ordering::SeqCst), 4);
}

/// An end that hands out six events, in batches of one, two and three, of which it marks the last batch alone, and finds no
/// memory at each third call. It refuses to complete less than it dealt, and more than the handler was shown. Others
/// retired its handler once it has taken so many events.
#[derive(Drop)]
pub struct Dealer<'a> {
    shown: &'a AtomicU64,
    calls: u64,
    dealt: u64,
    retired_at: u64,
    told: bool,
}

pub fn six_events(shown: &AtomicU64, retired_at: u64) -> Dealer<'_> {
    Dealer {
        shown,
        calls: 0,
        dealt: 0,
        retired_at,
        told: false,
    }
}

impl Outlet<Event> for Dealer<'_> {
    ghost kept = { λ _. tt };

    ghost told = { λ d. d.told };

    fn poll_into(&mut self, out: &mut [Event]) -> Result<Polled, Trouble> {
        if out.is_empty() {
            return Err(Trouble::Refused(Refusal::BadCount));
        }
        self.calls = self.calls.wrapping_add(1);
        if self.calls % 3 == 1 {
            return Err(Trouble::Memory);
        }
        if self.calls % 3 == 2 {
            return Ok(Polled::Gating);
        }
        if self.dealt >= 6 {
            self.told = true;
            return Ok(Polled::Drained);
        }
        let first = self.dealt;
        let events = [word(0), word(1), word(2), word(3), word(4), word(5)];
        let left = &events[first as usize..];
        let count = left.len().min(out.len()).min((first as usize + 3) / 2);
        out[..count].copy_from_slice(&left[..count]);
        self.dealt += count as u64;
        Ok(Polled::Batch {
            first,
            count: count as u64,
            end: self.dealt == 6,
        })
    }

    fn complete(&mut self, upto: u64) -> Result<(), Trouble> {
        self.calls = self.calls.wrapping_add(1);
        if self.dealt == self.retired_at {
            return Err(Trouble::Refused(Refusal::Retired));
        }
        if upto != self.dealt || upto != self.shown.load(Ordering::SeqCst) {
            return Err(Trouble::Refused(Refusal::NotTaken));
        }
        Ok(())
    }
}

/// A handler that counts marks, adds the first words, and tells how many events it was shown.
#[derive(Drop)]
pub struct Adder<'a> {
    shown: &'a AtomicU64,
    marks: u64,
    sum: u64,
}

impl Adder<'_> {
    pub fn new(shown: &AtomicU64) -> Adder<'_> {
        Adder {
            shown,
            marks: 0,
            sum: 0,
        }
    }

    // How many events and marks it was shown, and the sum of their first words.
    fn seen(&self) -> [u64; 3] {
        [self.shown.load(Ordering::SeqCst), self.marks, self.sum]
    }
}

impl Handler<Event> for Adder<'_> {
    fn on_event(&mut self, event: Event, _s: u64, end: bool) {
        self.shown.fetch_add(1, Ordering::SeqCst);
        self.marks = self.marks.wrapping_add(u64::from(end));
        self.sum = self.sum.wrapping_add(event.first);
    }
}

/// More events than there are.
pub const NEVER: u64 = 7;

// What the worker of a handler answers over an end with six events, and how many of them, marks and what sum it was shown.
fn check_taken<R: Wait + Abort, G: Gate>(
    rt: &R,
    gate: &G,
    buf: &mut [Event],
    retired_at: u64,
    wanted: Option<WorkFault>,
    events: [u64; 3],
) {
    let shown = AtomicU64::new(0);
    let (mut dealer, mut adder) = (six_events(&shown, retired_at), Adder::new(&shown));
    let answer = consume(rt, &mut dealer, gate, 0, &mut adder, buf);
    check(rt, answer, wanted);
    check(rt, adder.seen(), events);
}

#[test]
fn consumers(rt: HostRuntime) {
    let mut buf = [Event::NONE; 4];
    check_taken(&rt, &OpenGate, &mut buf, NEVER, None, [6, 1, 15]);
    let gate = stops_at_one();
    let stopped = Some(WorkFault::Stopped);
    check_taken(&rt, &gate, &mut buf, NEVER, stopped, [6, 1, 15]);
    check(&rt, gate.passed.load(Ordering::SeqCst), 2);
    let refused = Some(WorkFault::Refused(Refusal::BadCount));
    check_taken(&rt, &OpenGate, &mut [], NEVER, refused, [0, 0, 0]);
}

// The end hands out one event, two, and three, and hears one stroke after each completion.
#[test]
fn a_served_handler_rings_with_each_completion(rt: HostRuntime) {
    let (strokes, shown) = (no_strokes(), AtomicU64::new(0));
    let mut adder = ByValue {
        handler: Adder::new(&shown),
    };
    let dealer = hearing(six_events(&shown, NEVER), &strokes);
    let (dealer, fault) = serve(
        &rt,
        dealer,
        &OpenGate,
        0,
        &mut adder,
        &strokes,
        &mut Spinning,
    );
    check(&rt, fault, None);
    check(&rt, adder.handler.seen(), [6, 1, 15]);
    check(&rt, dealer.heard, Some(2));
    check_strokes(&rt, &strokes, 3);
}

#[test]
fn a_handler_retired_with_a_batch(rt: HostRuntime) {
    let mut buf = [Event::NONE; 4];
    let refused = Some(WorkFault::Refused(Refusal::Retired));
    check_taken(&rt, &OpenGate, &mut buf, 3, refused, [3, 0, 3]);
    // A refusal does not hide that it was stopped.
    let gate = stops_at_one();
    let stopped = Some(WorkFault::Stopped);
    check_taken(&rt, &gate, &mut buf, 3, stopped, [3, 0, 3]);
}

const REFUSED: Option<WorkFault> = Some(WorkFault::Refused(Refusal::Exhausted));

const ALL: [Ended; 6] = [
    Ended {
        who: 16,
        fault: Some(WorkFault::Memory),
    },
    Ended {
        who: 3,
        fault: REFUSED,
    },
    Ended {
        who: 9,
        fault: Some(WorkFault::Stopped),
    },
    Ended {
        who: 2,
        fault: REFUSED,
    },
    Ended {
        who: 4,
        fault: Some(WorkFault::Stopped),
    },
    Ended {
        who: 0,
        fault: None,
    },
];

// The first fault of these workers is this one's, with this number.
fn check_first(rt: &impl Abort, ended: &[Ended], who: usize, fault: WorkFault, number: u32) {
    check(rt, first_fault(ended), Some(WorkerFault { who, fault }));
    check(rt, fault.number(), number);
}

#[test]
fn first_of_several_faults(rt: HostRuntime) {
    let refused = WorkFault::Refused(Refusal::Exhausted);
    check_first(&rt, &ALL, 16, WorkFault::Memory, 40);
    check_first(&rt, &ALL[1..], 4, WorkFault::Stopped, 54);
    check_first(&rt, &ALL[1..3], 9, WorkFault::Stopped, 54);
    check_first(&rt, &ALL[1..2], 3, refused, 53);
    check(&rt, first_fault(&ALL[5..]), None);
    check(&rt, first_fault(&[]), None);
}

fn pauses_four_times(rt: &impl Abort, waiting: &mut Waiting, pauses: u32) {
    for _ in 0..4 {
        check(rt, waiting.pauses(), pauses);
        waiting.wait();
    }
}

// The pauses of the waits that follow, where the thread has room for 64 events and each wait lets so
// many come.
fn pauses_where(rt: &impl Abort, waiting: &mut Waiting, come: u64, wanted: &[u32]) {
    for pauses in wanted {
        pauses_four_times(rt, waiting, *pauses);
        check(rt, waiting.pauses(), 0);
        waiting.wait();
        waiting.found(come);
    }
}

// How many events each wait lets come, and the pauses of the waits.
const WAITS: [(u64, &[u32]); 7] = [
    (9, &[1, 2, 4, 8]),
    (10, &[16, 16]),
    (21, &[16, 16]),
    (22, &[16, 8, 4, 2, 1, 1]),
    (1, &[1, 2, 4, 8, 16, 32, 64, 64]),
    (9, &[64, 128, 256, 512, 512]),
    (7, &[512, 256, 256]),
];

#[test]
fn waits_become_longer_and_shorter(rt: HostRuntime) {
    let mut waiting = Waiting::new(64);
    for (come, wanted) in WAITS {
        pauses_where(&rt, &mut waiting, come, wanted);
    }
}
