//! A handler's turns, at the end of any exchange.

use crate::fault::Fault;
use crate::random::Random;
use crate::signs::Signs;
use crate::stretch::{Stretch, TURNS};
use dr_meaning::{Outlet, Polled};
use dr_seq::Event;
use std::alloc::{AllocError, Global};

/// What a handler received, and whether it was told that the exchange drained.
#[derive(Drop)]
pub struct Received {
    pub events: Vec<Event>,
    pub drained: bool,
}

/// A handler with what it did so far.
#[derive(Drop)]
pub struct Receiving {
    random: Random,
    room: Vec<Event>,
    taken: Vec<Event>,
    completed: u64,
    leaves: bool,
}

impl Receiving {
    /// A handler that takes up to 64 events at once.
    pub fn new(alloc: Global, random: &mut Random) -> Result<Receiving, AllocError> {
        let most = random.below(64).saturating_add(1);
        Ok(Receiving {
            random: random.split(),
            room: vec![in alloc; Event::NONE; most as usize]?,
            taken: Vec::new(alloc),
            completed: 0,
            leaves: random.below(4) == 0,
        })
    }

    /// What decides its turns.
    pub fn random(&mut self) -> &mut Random {
        &mut self.random
    }

    /// Whether it takes no more at some time, whatever there is.
    pub fn leaves(&self) -> bool {
        self.leaves
    }

    /// What it received, at its end.
    pub fn into_received(self, drained: bool) -> Received {
        Received {
            events: self.taken,
            drained,
        }
    }

    /// Completes a part of what it took, or all of it.
    fn complete<O: Outlet<Event>>(&mut self, outlet: &mut O, all: bool) -> Result<(), Fault> {
        let open = (self.taken.len() as u64).wrapping_sub(self.completed);
        let part = if all || self.random.below(2) == 0 {
            open
        } else {
            self.random.below(open)
        };
        self.completed = self.completed.wrapping_add(part);
        Ok(outlet.complete(self.completed)?)
    }

    /// Keeps a batch, which is to follow what was taken before.
    fn keep(&mut self, first: u64, count: u64) -> Result<(), Fault> {
        if first != self.taken.len() as u64 || count > self.room.len() as u64 {
            return Err(Fault::WrongEvent);
        }
        for event in self.room.iter().take(count as usize) {
            self.taken.push(*event)?;
        }
        Ok(())
    }

    /// A poll with some room, and at least one event's.
    fn poll<O: Outlet<Event>>(&mut self, outlet: &mut O) -> Result<Polled, Fault> {
        let most = self.room.len();
        let offered = self.random.below(most as u64).saturating_add(1);
        let offered = most.min(offered as usize);
        Ok(outlet.poll_into(&mut self.room[..offered])?)
    }

    fn turn<O: Outlet<Event>>(&mut self, outlet: &mut O, signs: &Signs) -> Result<Stretch, Fault> {
        match self.poll(outlet)? {
            Polled::Batch { first, count, .. } => {
                self.keep(first, count)?;
                self.random.pause();
                self.complete(outlet, false)?;
                Ok(Stretch::Goes)
            }
            Polled::Drained => {
                self.complete(outlet, true)?;
                Ok(Stretch::Drained)
            }
            Polled::Gating | Polled::Idle => {
                let are_over = signs.are_over();
                self.complete(outlet, true)?;
                Ok(if are_over {
                    Stretch::Left
                } else {
                    Stretch::Goes
                })
            }
        }
    }

    /// Polls and completes for a stretch of turns, or until there is no more to take.
    pub fn receive<O: Outlet<Event>>(
        &mut self,
        outlet: &mut O,
        signs: &Signs,
    ) -> Result<Stretch, Fault> {
        for _ in 0..TURNS {
            self.random.pause();
            let stretch = self.turn(outlet, signs)?;
            if !matches!(stretch, Stretch::Goes) {
                return Ok(stretch);
            }
        }
        Ok(Stretch::Goes)
    }
}
