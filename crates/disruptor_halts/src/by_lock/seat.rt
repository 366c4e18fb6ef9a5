//! What the threads of a round behind the lock call through.

use crate::ends::{Halting, Producing, Taking};
use crate::fault::Fault;
use crate::random::Random;
use crate::receiving::Receiving;
use crate::sending::Sending;
use crate::signs::Signs;
use crate::stretch::Stretch;
use dr_lock::{End, Exchange, LockedInlet, LockedOutlet, Shared, halt};
use dr_meaning::{Command, Refusal, Reply};
use dr_seq::Event;
use std::sync::Wait;

/// In one of how many stretches a thread halts the exchange.
const MOST_BEFORE_HALT: u64 = 500;

/// In one of how many stretches a handler that leaves early asks to be retired.
const MOST_BEFORE_RETIREMENT: u64 = 4;

/// An end at the lock, of a producer or a handler of this number, or of who halts.
#[derive(Drop)]
pub struct Seat<'a, L: Exchange<Event>, R> {
    pub rt: &'a R,
    pub shared: &'a Shared<Event, L>,
    /// It is there between two stretches.
    pub end: &'a mut Option<End<Event, L>>,
    pub number: u64,
}

impl<L: Exchange<Event>, R: Wait> Seat<'_, L, R> {
    fn stop(&mut self) {
        if let Some(end) = &mut *self.end {
            halt(self.rt, self.shared, end);
        }
    }

    /// Asks that the handler is retired, and says whether it takes more.
    fn retire(&mut self) -> Result<Stretch, Fault> {
        let h = self.number as usize;
        let Some(end) = &mut *self.end else {
            return Err(Fault::Ends);
        };
        match self
            .shared
            .call(self.rt, end, Command::Retire { h }, &mut [])
        {
            Ok(Reply::Retired) => Ok(Stretch::Left),
            Ok(Reply::Refused(Refusal::NotFinal | Refusal::LastHandler)) => Ok(Stretch::Goes),
            Ok(_) => Err(Fault::WrongReply),
            Err(_) => Err(Fault::Memory),
        }
    }
}

impl<L: Exchange<Event> + Sync, R: Wait + Sync> Producing for Seat<'_, L, R> {
    fn send(&mut self, sending: &mut Sending) -> Result<Stretch, Fault> {
        let Some(end) = self.end.take() else {
            return Err(Fault::Ends);
        };
        let mut inlet = LockedInlet::new(self.rt, self.shared, end, self.number);
        let stretch = sending.send(&mut inlet);
        *self.end = Some(inlet.into_end());
        stretch
    }

    fn may_halt(&mut self, random: &mut Random) {
        if random.below(MOST_BEFORE_HALT) == 0 {
            self.stop();
        }
    }

    fn end(&mut self) -> Result<(), Fault> {
        Ok(())
    }
}

impl<L: Exchange<Event> + Sync, R: Wait + Sync> Taking for Seat<'_, L, R> {
    fn receive(&mut self, receiving: &mut Receiving, signs: &Signs) -> Result<Stretch, Fault> {
        let Some(end) = self.end.take() else {
            return Err(Fault::Ends);
        };
        let mut outlet = LockedOutlet::new(self.rt, self.shared, end, self.number as usize);
        let stretch = receiving.receive(&mut outlet, signs);
        *self.end = Some(outlet.into_end());
        stretch
    }

    fn may_halt(&mut self, random: &mut Random) {
        if random.below(MOST_BEFORE_HALT) == 0 {
            self.stop();
        }
    }

    fn may_leave(&mut self, random: &mut Random, _signs: &Signs) -> Result<Stretch, Fault> {
        if random.below(MOST_BEFORE_RETIREMENT) == 0 {
            self.retire()
        } else {
            Ok(Stretch::Goes)
        }
    }
}

impl<L: Exchange<Event> + Sync, R: Wait + Sync> Halting for Seat<'_, L, R> {
    fn halt(&mut self) {
        self.stop();
    }
}
