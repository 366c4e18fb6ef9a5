//! Rounds over the rings: of one sender over words, and of one and of several over plain memory.

use crate::ends::{Halting, Producing, Taking};
use crate::fault::Fault;
use crate::graphs::{any_size, graph};
use crate::random::Random;
use crate::receiving::Receiving;
use crate::round::{Opened, told};
use crate::sending::Sending;
use crate::signs::Signs;
use crate::stretch::Stretch;
use crate::told::Told;
use dr_meaning::MAX_LIMIT;
use dr_ring::{Halter, Receiver, Sender, ring};
use dr_seq::Event;
use std::alloc::Global;
use std::sync::Wait;
use std::thread::Threads;

/// The most senders of a ring.
const MOST_SENDERS: u64 = 4;

/// In one of how many stretches a handler that leaves early does so, or a sender halts.
const MOST_BEFORE_LEAVING: u64 = 100;

impl Producing for Sender {
    fn send(&mut self, sending: &mut Sending) -> Result<Stretch, Fault> {
        sending.send(self)
    }

    fn end(&mut self) -> Result<(), Fault> {
        match self.close() {
            Ok(()) => Ok(()),
            Err(_) => Err(Fault::WrongReply),
        }
    }
}

impl Producing for dr_plain::Sender<Event> {
    fn send(&mut self, sending: &mut Sending) -> Result<Stretch, Fault> {
        sending.send(self)
    }

    fn end(&mut self) -> Result<(), Fault> {
        match self.close() {
            Ok(()) => Ok(()),
            Err(_) => Err(Fault::WrongReply),
        }
    }
}

impl Producing for dr_plain_senders::Sender<Event> {
    fn send(&mut self, sending: &mut Sending) -> Result<Stretch, Fault> {
        sending.send(self)
    }

    fn may_halt(&mut self, random: &mut Random) {
        if random.below(MOST_BEFORE_LEAVING) == 0 {
            self.halt();
        }
    }

    fn end(&mut self) -> Result<(), Fault> {
        Ok(())
    }
}

/// The handler is gone then, and those after it get no more.
fn leave(random: &mut Random, signs: &Signs) -> Stretch {
    if random.below(MOST_BEFORE_LEAVING) > 0 {
        return Stretch::Goes;
    }
    signs.leave();
    Stretch::Left
}

impl Taking for Receiver {
    fn receive(&mut self, receiving: &mut Receiving, signs: &Signs) -> Result<Stretch, Fault> {
        receiving.receive(self, signs)
    }

    fn may_leave(&mut self, random: &mut Random, signs: &Signs) -> Result<Stretch, Fault> {
        Ok(leave(random, signs))
    }
}

impl Taking for dr_plain::Receiver<Event> {
    fn receive(&mut self, receiving: &mut Receiving, signs: &Signs) -> Result<Stretch, Fault> {
        receiving.receive(self, signs)
    }

    fn may_leave(&mut self, random: &mut Random, signs: &Signs) -> Result<Stretch, Fault> {
        Ok(leave(random, signs))
    }
}

impl Taking for dr_plain_senders::Receiver<Event> {
    fn receive(&mut self, receiving: &mut Receiving, signs: &Signs) -> Result<Stretch, Fault> {
        receiving.receive(self, signs)
    }

    fn may_leave(&mut self, random: &mut Random, signs: &Signs) -> Result<Stretch, Fault> {
        Ok(leave(random, signs))
    }
}

impl Halting for Halter {
    fn halt(&mut self) {
        Halter::halt(self);
    }
}

impl Halting for dr_plain::Halter<Event> {
    fn halt(&mut self) {
        dr_plain::Halter::halt(self);
    }
}

impl Halting for dr_plain_senders::Halter<Event> {
    fn halt(&mut self) {
        dr_plain_senders::Halter::halt(self);
    }
}

fn open_with_one(
    alloc: Global,
    random: &mut Random,
) -> Result<Opened<Sender, Receiver, Halter>, Fault> {
    let size = any_size(random)?;
    let graph = graph(alloc, random)?;
    let (sender, receivers, halter) = ring(alloc, &graph, size, MAX_LIMIT)?;
    let mut senders = Vec::new(alloc);
    senders.push(sender)?;
    Ok(Opened {
        inlets: senders,
        outlets: receivers,
        halter,
        slots: size.get(),
        in_order: true,
    })
}

// The ends of a ring of events.
type PlainSender = dr_plain::Sender<Event>;

type PlainReceiver = dr_plain::Receiver<Event>;

type PlainHalter = dr_plain::Halter<Event>;

fn open_over_plain_memory(
    alloc: Global,
    random: &mut Random,
) -> Result<Opened<PlainSender, PlainReceiver, PlainHalter>, Fault> {
    let size = any_size(random)?;
    let graph = graph(alloc, random)?;
    let events = vec![in alloc; Event::NONE; size.get() as usize]?;
    let (sender, receivers, halter) = dr_plain::ring(alloc, &graph, size, MAX_LIMIT, events)?;
    let mut senders = Vec::new(alloc);
    senders.push(sender)?;
    Ok(Opened {
        inlets: senders,
        outlets: receivers,
        halter,
        slots: size.get(),
        in_order: true,
    })
}

// The ends of a ring of events with several senders.
type SomeSender = dr_plain_senders::Sender<Event>;

type SomeReceiver = dr_plain_senders::Receiver<Event>;

type SomeHalter = dr_plain_senders::Halter<Event>;

fn open_with_several(
    alloc: Global,
    random: &mut Random,
) -> Result<Opened<SomeSender, SomeReceiver, SomeHalter>, Fault> {
    let size = any_size(random)?;
    let graph = graph(alloc, random)?;
    let count = random.below(MOST_SENDERS).saturating_add(1) as usize;
    let events = vec![in alloc; Event::NONE; size.get() as usize]?;
    let made = dr_plain_senders::ring(alloc, &graph, size, MAX_LIMIT, count, events);
    let (senders, receivers, halter) = made?;
    Ok(Opened {
        inlets: senders,
        outlets: receivers,
        halter,
        slots: size.get(),
        in_order: false,
    })
}

/// Runs a ring of one sender.
pub fn one_sender<R: Threads + Wait + Sync>(
    rt: &R,
    alloc: Global,
    random: &mut Random,
) -> Result<Told, Fault> {
    let opened = open_with_one(alloc, random)?;
    told(rt, alloc, opened, random)
}

/// Runs a ring of one sender over plain memory.
pub fn over_plain_memory<R: Threads + Wait + Sync>(
    rt: &R,
    alloc: Global,
    random: &mut Random,
) -> Result<Told, Fault> {
    let opened = open_over_plain_memory(alloc, random)?;
    told(rt, alloc, opened, random)
}

/// Runs a ring of several senders over plain memory, which may halt it too.
pub fn several_senders<R: Threads + Wait + Sync>(
    rt: &R,
    alloc: Global,
    random: &mut Random,
) -> Result<Told, Fault> {
    let opened = open_with_several(alloc, random)?;
    told(rt, alloc, opened, random)
}
