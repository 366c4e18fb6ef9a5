//! Events that own memory: how many there are is known at any time.

ghost use Rattle.std.specs.Prelude.{◌≡◌};

use crate::checks::{check, check_at};
use dr_plain_senders::Values;
use std::alloc::Global;
use std::process::Abort;
use std::sync::Arc;

/// An event, and a share of what tells how many events there are.
#[derive(Drop)]
pub struct Counted {
    pub number: u64,
    _alive: Arc<u64>,
}

pub fn event(rt: &impl Abort, alive: &Arc<u64>, number: u64) -> Counted {
    Counted {
        number,
        _alive: Arc::try_clone(alive).expect(rt, "memory"),
    }
}

/// What tells how many events there are, of which there are none yet.
pub fn none_alive(rt: &impl Abort, alloc: Global) -> Arc<u64> {
    Arc::new(alloc, 0u64).expect(rt, "memory")
}

/// The events that so many cells begin with, whose numbers are no sequence's.
pub fn some_events(rt: &impl Abort, alloc: Global, alive: &Arc<u64>, many: u64) -> Vec<Counted> {
    let mut events = Vec::new(alloc);
    for k in 0..many {
        let one = event(rt, alive, k.wrapping_add(100));
        events.push(one).expect(rt, "memory");
    }
    events
}

/// All ends of a ring over such events, and how many shares there are of what tells how many there are.
#[derive(Drop)]
pub struct Counting<E> {
    pub ends: E,
    pub alive: Arc<u64>,
    shares: usize,
}

impl<E> Counting<E> {
    pub fn new(rt: &impl Abort, ends: E, alive: &Arc<u64>) -> Counting<E>
        ensures { result.ends ≡ ends }
    {
        let alive = Arc::try_clone(alive).expect(rt, "memory");
        let shares = Arc::strong_count(&alive);
        Counting {
            ends,
            alive,
            shares,
        }
    }

    /// Each event is there that was there at first, or one in its place.
    pub fn check_shares(&self, rt: &impl Abort) {
        check(rt, Arc::strong_count(&self.alive), self.shares);
    }
}

fn next_number(events: &mut Values<Counted>) -> u64 {
    match events.next() {
        Some(one) => one.number,
        None => u64::MAX,
    }
}

/// Four events came back. So many of them are used, in the cells' order, and the others are dropped with the rest.
pub fn use_some(
    rt: &impl Abort,
    alive: &Arc<u64>,
    mut events: Values<Counted>,
    lying: &[u64; 4],
    count: usize,
    name: &'static str,
) {
    check_at(rt, Arc::strong_count(alive) as u64, 5, name);
    for number in lying.iter().take(count) {
        check_at(rt, next_number(&mut events), *number, name);
    }
    let left = 5usize.wrapping_sub(count);
    check_at(rt, Arc::strong_count(alive) as u64, left as u64, name);
}
