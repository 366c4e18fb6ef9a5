//! The parties of a round, each of which has a thread of its own.

use crate::MOST_TURNS;
use crate::ends::{Halting, Producing, Taking};
use crate::fault::Fault;
use crate::random::Random;
use crate::receiving::{Received, Receiving};
use crate::sending::{Sending, Sent};
use crate::signs::Signs;
use crate::stretch::Stretch;

/// An end, and what its thread does with it.
#[derive(Drop)]
pub enum Party<I, O, H> {
    Producer(I, Sending),
    Handler(O, Receiving),
    Halter(H, Random),
}

/// What came of a party's work.
#[derive(Drop)]
pub enum Done {
    Sent(Sent),
    Received(Received),
    Halted,
}

/// Sends until the exchange is halted, or the round failed.
fn send_all<I: Producing>(
    inlet: &mut I,
    sending: &mut Sending,
    signs: &Signs,
) -> Result<(), Fault> {
    for _ in 0..MOST_TURNS {
        let stretch = inlet.send(sending)?;
        if !matches!(stretch, Stretch::Goes) || signs.have_failed() {
            return inlet.end();
        }
        inlet.may_halt(sending.random());
    }
    Err(Fault::NoEnd)
}

/// Takes and completes events for a stretch of turns, and leaves then, if it may.
fn receive_some<O: Taking>(
    outlet: &mut O,
    receiving: &mut Receiving,
    signs: &Signs,
) -> Result<Stretch, Fault> {
    let stretch = outlet.receive(receiving, signs)?;
    if receiving.leaves() && matches!(stretch, Stretch::Goes) {
        return outlet.may_leave(receiving.random(), signs);
    }
    Ok(stretch)
}

/// Takes and completes events until the exchange drained, until it leaves, or until it may wait for
/// another that left. It says whether it was told that the exchange drained.
fn receive_all<O: Taking>(
    outlet: &mut O,
    receiving: &mut Receiving,
    signs: &Signs,
) -> Result<bool, Fault> {
    for _ in 0..MOST_TURNS {
        match receive_some(outlet, receiving, signs)? {
            Stretch::Drained => return Ok(true),
            Stretch::Left => return Ok(false),
            Stretch::Goes => outlet.may_halt(receiving.random()),
        }
    }
    Err(Fault::NoEnd)
}

/// Halts after a while, and sometimes again.
fn halt<H: Halting>(halter: &mut H, random: &mut Random) {
    for _ in 0..random.below(20000) {
        random.pause();
    }
    halter.halt();
    if random.below(2) == 0 {
        halter.halt();
    }
}

fn produced<I: Producing>(
    inlet: &mut I,
    mut sending: Sending,
    signs: &Signs,
) -> Result<Done, Fault> {
    let sent = send_all(inlet, &mut sending, signs);
    signs.end_sending();
    match sent {
        Ok(()) => Ok(Done::Sent(sending.into_sent())),
        Err(fault) => Err(fault),
    }
}

fn handled<O: Taking>(
    outlet: &mut O,
    mut receiving: Receiving,
    signs: &Signs,
) -> Result<Done, Fault> {
    match receive_all(outlet, &mut receiving, signs) {
        Ok(drained) => Ok(Done::Received(receiving.into_received(drained))),
        Err(fault) => Err(fault),
    }
}

impl<I: Producing, O: Taking, H: Halting> Party<I, O, H> {
    fn work(self, signs: &Signs) -> Result<Done, Fault> {
        match self {
            Party::Producer(mut inlet, sending) => produced(&mut inlet, sending, signs),
            Party::Handler(mut outlet, receiving) => handled(&mut outlet, receiving, signs),
            Party::Halter(mut halter, mut random) => {
                halt(&mut halter, &mut random);
                Ok(Done::Halted)
            }
        }
    }

    /// Does its work, on the thread that calls this.
    pub fn play(self, signs: &Signs) -> Result<Done, Fault> {
        let done = self.work(signs);
        if done.is_err() {
            signs.fail();
        }
        done
    }
}
