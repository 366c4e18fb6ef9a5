//! Where in their work workers come to their gates.

ghost use Rattle.std.specs.Prelude.{◌≡◌};

use crate::checks::check;
use crate::workers::{Adder, Lacks, NEVER, SCRIPT, scarce_end, six_events};
use dr_meaning::{Claimed, Inlet, Outlet, Polled, Trouble};
use dr_seq::Event;
use dr_workers::{Gate, GateAnswer, Produced, consume, produce};
use std::marker::Model;
use std::sync::atomic::{AtomicU64, Ordering};

// How many events a worker has begun with and is done with, and what a gate found of this: two digits at each passage.
#[derive(Drop)]
struct Course {
    begun: AtomicU64,
    done: AtomicU64,
    found: AtomicU64,
}

impl Course {
    fn new() -> Course {
        Course {
            begun: AtomicU64::new(0),
            done: AtomicU64::new(0),
            found: AtomicU64::new(0),
        }
    }

    fn found(&self) -> u64 {
        self.found.load(Ordering::SeqCst)
    }
}

impl Gate for Course {
    fn pass(&self, _who: usize, _passage: u64) -> GateAnswer {
        let begun = self.begun.load(Ordering::SeqCst);
        let done = self.done.load(Ordering::SeqCst);
        let here = begun.wrapping_mul(10).wrapping_add(done);
        let found = self.found().wrapping_mul(100).wrapping_add(here);
        self.found.store(found, Ordering::SeqCst);
        GateAnswer::Go
    }
}

fn add_if(is_done: bool, count: &AtomicU64, more: u64) {
    if is_done {
        count.fetch_add(more, Ordering::SeqCst);
    }
}

// An end that notes what it claimed, and what it wrote or completed.
#[derive(Drop)]
struct Noting<'a, T> {
    end: T,
    course: &'a Course,
}

impl<'a, T> Model for Noting<'a, T> {
    ghost Value = { T };

    ghost view = { λ noting. noting.end };
}

fn with_notes<T>(end: T, course: &Course) -> Noting<'_, T>
    ensures { result ≡ end }
{
    Noting { end, course }
}

impl<E: Copy, I: Inlet<E>> Inlet<E> for Noting<'_, I> {
    ghost Kept = { I.Kept };

    ghost kept = { I.kept };

    ghost sent = { I.sent };

    fn try_claim(&mut self, n: u64) -> Result<Claimed, Trouble> {
        let answer = self.end.try_claim(n);
        add_if(answer.is_ok(), &self.course.begun, n);
        answer
    }

    fn write(&mut self, s: u64, event: E) -> Result<(), Trouble> {
        let answer = self.end.write(s, event);
        add_if(answer.is_ok(), &self.course.done, 1);
        answer
    }

    fn publish(&mut self, lo: u64, hi: u64) -> Result<(), Trouble> {
        self.end.publish(lo, hi)
    }
}

impl<E, O: Outlet<E>> Outlet<E> for Noting<'_, O> {
    ghost Kept = { O.Kept };

    ghost kept = { O.kept };

    ghost received = { O.received };

    ghost told = { O.told };

    fn poll_into(&mut self, out: &mut [E]) -> Result<Polled, Trouble> {
        self.end.poll_into(out)
    }

    fn complete(&mut self, upto: u64) -> Result<(), Trouble> {
        let answer = self.end.complete(upto);
        if answer.is_ok() {
            self.course.done.store(upto, Ordering::SeqCst);
        }
        answer
    }
}

// Of batches of one event, two and three each was shown whole, and the ones before it completed.
#[test]
fn a_handler_comes_to_its_gate_before_each_completion(rt: HostRuntime) {
    let course = Course::new();
    let mut adder = Adder::new(&course.begun);
    let mut outlet = with_notes(six_events(&course.begun, NEVER), &course);
    let mut buf = [Event::NONE; 4];
    let fault = consume(&rt, &mut outlet, &course, 0, &mut adder, &mut buf);
    check(&rt, fault, None);
    check(&rt, course.found(), 10_31_63);
}

// Of claims of two events, two and one each is made, and the events of the ones before it are written.
#[test]
fn a_producer_comes_to_its_gate_before_its_writes(rt: HostRuntime) {
    let course = Course::new();
    let mut inlet = with_notes(scarce_end(Lacks::Memory, 5), &course);
    let all = Produced {
        sent: 5,
        fault: None,
    };
    check(&rt, produce(&rt, &mut inlet, &course, 16, &SCRIPT, 2), all);
    check(&rt, course.found(), 20_42_54);
}
