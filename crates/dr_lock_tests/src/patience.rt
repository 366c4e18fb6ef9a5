//! Workers that wait in each way, and a bell between two threads.

use crate::checks::check;
use crate::ringing::{check_strokes, no_strokes};
use crate::workers::{Lacks, scarce_end};
use dr_seq::Event;
use dr_workers::{
    Bell, OpenGate, Parking, Patience, Produced, Ringing, Rings, Spinning, Waiting, produce_with,
};
use std::alloc::Global;
use std::process::Abort;
use std::sync::atomic::{AtomicU64, Ordering};
use std::sync::{Arc, Wait};
use std::thread::{Threads, join};

// What a worker told its patience.
#[derive(Drop)]
struct Told {
    waits: u64,
    finds: u64,
    found: u64,
}

impl Patience for Told {
    fn wait(&mut self) {
        self.waits = self.waits.wrapping_add(1);
    }

    fn found(&mut self, count: u64) {
        self.finds = self.finds.wrapping_add(1);
        self.found = self.found.wrapping_add(count);
    }
}

// Sends six events through a crowded end that rings, and waits so.
fn send_six<R: Wait + Abort, P: Patience>(rt: &R, patience: &mut P) {
    let strokes = no_strokes();
    let mut inlet = Ringing::new(scarce_end(Lacks::Room, 6), &strokes);
    let all = Produced {
        sent: 6,
        fault: None,
    };
    let script = [Event::NONE; 6];
    check(
        rt,
        produce_with(rt, &mut inlet, &OpenGate, 16, &script, 1, patience),
        all,
    );
    check(rt, inlet.end().published, 6);
    check_strokes(rt, &strokes, 6);
    inlet.call(|end| end.published = 0);
    check_strokes(rt, &strokes, 7);
    check(rt, inlet.into_end().published, 0);
}

#[test]
fn a_sender_by_each_way_of_waiting(rt: HostRuntime) {
    let bell = Bell::new();
    send_six(&rt, &mut Waiting::new(1));
    send_six(&rt, &mut Spinning);
    let mut parking = Parking::new(&rt, &bell, 1);
    send_six(&rt, &mut parking);
    assert!(rt; parking.sleeps());
    parking.found(2);
    assert!(rt; !parking.sleeps());
    // Two claims found room between two times of waiting.
    let mut told = Told {
        waits: 0,
        finds: 0,
        found: 0,
    };
    send_six(&rt, &mut told);
    assert!(rt; told.waits == 612 && told.finds == 2 && told.found == 4);
}

// Tells that it goes to sleep, and parks until another thread has raised the flag.
fn wait_for(rt: &impl Wait, bell: &Bell, asleep: &AtomicU64, flag: &AtomicU64) {
    let mut parking = Parking::new(rt, bell, 1);
    for _ in rt.forever() {
        if flag.load(Ordering::SeqCst) == 1 {
            return;
        }
        if parking.sleeps() {
            asleep.store(1, Ordering::SeqCst);
        }
        parking.wait();
    }
    unreachable!()
}

// Raises the flag once the other thread sleeps, and rings.
fn raise(rt: &impl Wait, bell: &Arc<Bell, Global>, asleep: &AtomicU64, flag: &AtomicU64) {
    let mut waiting = Waiting::new(1);
    for _ in rt.forever() {
        if asleep.load(Ordering::SeqCst) == 1 {
            flag.store(1, Ordering::SeqCst);
            Rings::ring(bell);
            return;
        }
        waiting.wait();
    }
    unreachable!()
}

fn by_two_threads<R: Wait + Threads + Sync>(rt: &R, bell: &Arc<Bell, Global>) {
    let (asleep, flag) = (AtomicU64::new(0), AtomicU64::new(0));
    let ((), ()) = join(
        rt,
        || wait_for(rt, bell, &asleep, &flag),
        || raise(rt, bell, &asleep, &flag),
    );
}

#[test]
fn a_thread_sleeps_until_a_bell_rings(rt: HostRuntime) {
    let bell = Arc::new(rt.alloc(), Bell::new()).expect(&rt, "memory");
    by_two_threads(&rt, &bell);
}
