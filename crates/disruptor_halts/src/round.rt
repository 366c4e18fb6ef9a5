//! A round over any exchange, from its ends until all of their threads are done.

ghost use denote.Param.Send.{IsSend};

use crate::ends::{Halting, Producing, Taking};
use crate::fault::Fault;
use crate::parties::{Done, Party};
use crate::random::Random;
use crate::receiving::{Received, Receiving};
use crate::sending::{Sending, Sent, by_sequence};
use crate::signs::Signs;
use crate::told::Told;
use std::alloc::{AllocError, Global};
use std::sync::Wait;
use std::thread::{self, JoinHandle, Threads};

/// The ends of an exchange of so many slots.
#[derive(Drop)]
pub struct Opened<I, O, H> {
    pub inlets: Vec<I>,
    pub outlets: Vec<O>,
    pub halter: H,
    pub slots: u64,
    /// Whether publications are to come in the order of their sequences.
    pub in_order: bool,
}

/// What the producers and the handlers of an exchange did.
#[derive(Drop)]
pub struct Came {
    pub sent: Vec<Sent>,
    pub received: Vec<Received>,
}

impl Came {
    fn add(&mut self, done: Done) -> Result<(), AllocError> {
        match done {
            Done::Sent(sent) => Ok(self.sent.push(sent)?),
            Done::Received(received) => Ok(self.received.push(received)?),
            Done::Halted => Ok(()),
        }
    }

    fn add_all(&mut self, all: Vec<Result<Done, Fault>>) -> Result<(), Fault> {
        for done in all {
            self.add(done?)?;
        }
        Ok(())
    }
}

fn add_producers<I: Drop, O: Drop, H: Drop>(
    alloc: Global,
    parties: &mut Vec<Party<I, O, H>>,
    inlets: Vec<I>,
    slots: u64,
    in_order: bool,
    random: &mut Random,
) -> Result<(), AllocError> {
    for inlet in inlets {
        let number = parties.len() as u64;
        let sending = Sending::new(alloc, number, slots, in_order, random.split());
        parties.push(Party::Producer(inlet, sending))?;
    }
    Ok(())
}

fn add_handlers<I: Drop, O: Drop, H: Drop>(
    alloc: Global,
    parties: &mut Vec<Party<I, O, H>>,
    outlets: Vec<O>,
    random: &mut Random,
) -> Result<(), AllocError> {
    for outlet in outlets {
        let receiving = Receiving::new(alloc, random)?;
        parties.push(Party::Handler(outlet, receiving))?;
    }
    Ok(())
}

fn parties_of<I: Drop, O: Drop, H: Drop>(
    alloc: Global,
    opened: Opened<I, O, H>,
    random: &mut Random,
) -> Result<Vec<Party<I, O, H>>, AllocError> {
    let Opened {
        inlets,
        outlets,
        halter,
        slots,
        in_order,
    } = opened;
    let mut parties = Vec::new(alloc);
    add_producers(alloc, &mut parties, inlets, slots, in_order, random)?;
    add_handlers(alloc, &mut parties, outlets, random)?;
    parties.push(Party::Halter(halter, random.split()))?;
    Ok(parties)
}

/// What threads give back, if there are so many of them.
fn join<T: Drop, R: Threads>(
    rt: &R,
    alloc: Global,
    started: Vec<JoinHandle<T>>,
    count: usize,
) -> Result<Vec<T>, Fault> {
    let mut all = Vec::with_capacity(alloc, count)?;
    for worker in started {
        all.push(worker.join(rt))?;
    }
    if all.len() < count {
        return Err(Fault::Thread);
    }
    Ok(all)
}

/// Runs each party on a thread of its own.
fn run<I: Producing, O: Taking, H: Halting, R: Threads + Wait + Sync>(
    rt: &R,
    alloc: Global,
    signs: &Signs,
    parties: Vec<Party<I, O, H>>,
) -> Result<Vec<Result<Done, Fault>>, Fault> {
    thread::scope(
        thread::scope_env(),
        rt,
        move |scope| -> Result<Vec<Result<Done, Fault>>, Fault>
            requires inlets { IsSend I.row }
            requires outlets { IsSend O.row }
            requires halters { IsSend H.row }
        {
            let count = parties.len();
            let mut started = Vec::with_capacity(alloc, count)?;
            for party in parties {
                match scope.spawn(move || party.play(signs)) {
                    Ok(worker) => started.push(worker)?,
                    Err(_) => signs.fail(),
                }
            }
            join(rt, alloc, started, count)
        },
    )
}

/// Runs an exchange with a thread for each of its ends.
pub fn play<I: Producing, O: Taking, H: Halting, R: Threads + Wait + Sync>(
    rt: &R,
    alloc: Global,
    opened: Opened<I, O, H>,
    random: &mut Random,
) -> Result<Came, Fault> {
    let signs = Signs::new(opened.inlets.len());
    let parties = parties_of(alloc, opened, random)?;
    let all = run(rt, alloc, &signs, parties)?;
    let mut came = Came {
        sent: Vec::new(alloc),
        received: Vec::new(alloc),
    };
    match came.add_all(all) {
        Ok(()) => Ok(came),
        Err(fault) => Err(fault),
    }
}

/// Runs an exchange, and tells what it came to, if each handler received a beginning of what the producers sent.
pub fn told<I: Producing, O: Taking, H: Halting, R: Threads + Wait + Sync>(
    rt: &R,
    alloc: Global,
    opened: Opened<I, O, H>,
    random: &mut Random,
) -> Result<Told, Fault> {
    let Came { sent, received } = play(rt, alloc, opened, random)?;
    let published = by_sequence(alloc, sent.as_slice())?;
    Told::of(published.as_slice(), received.as_slice())
}
