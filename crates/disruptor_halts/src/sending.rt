//! A producer's turns, at the end of any exchange.

use crate::fault::Fault;
use crate::random::Random;
use crate::stretch::{Stretch, TURNS};
use dr_meaning::{Claimed, Inlet, Refusal, Trouble};
use dr_seq::Event;
use std::alloc::Global;

/// The events that a producer sent, in the order of its claims, and the sequence of each.
#[derive(Drop)]
pub struct Sent {
    pub sequences: Vec<u64>,
    pub events: Vec<Event>,
}

// How many events several producers sent.
fn how_many(all: &[Sent]) -> usize {
    let mut count: usize = 0;
    for sent in all {
        count = count.saturating_add(sent.events.len());
    }
    count
}

/// Puts each event in its place, where no other is.
fn place(sent: &Sent, found: &mut [bool], events: &mut [Event]) -> Result<(), Fault> {
    for (sequence, event) in sent.sequences.iter().zip(&sent.events) {
        let place = *sequence as usize;
        if place >= found.len() || place >= events.len() || found[place] {
            return Err(Fault::WrongSequence);
        }
        found[place] = true;
        events[place] = *event;
    }
    Ok(())
}

/// Puts the events of several producers in their places.
fn place_all(all: &[Sent], found: &mut [bool], events: &mut [Event]) -> Result<(), Fault> {
    for sent in all {
        place(sent, found, events)?;
    }
    Ok(())
}

/// What several producers sent, by the sequences. Each sequence below their number is to be there once.
pub fn by_sequence(alloc: Global, all: &[Sent]) -> Result<Vec<Event>, Fault> {
    let count = how_many(all);
    let mut found = vec![in alloc; false; count]?;
    let mut events = vec![in alloc; Event::NONE; count]?;
    match place_all(all, &mut found, &mut events) {
        Ok(()) => Ok(events),
        Err(fault) => Err(fault),
    }
}

/// A producer with what it sent so far. Its events have its number, and 0, 1, 2 and so on.
#[derive(Drop)]
pub struct Sending {
    number: u64,
    size: u64,
    /// Whether publications are to come in the order of their sequences.
    in_order: bool,
    random: Random,
    sent: Sent,
}

impl Sending {
    /// A producer that claims from an exchange of so many slots.
    pub fn new(alloc: Global, number: u64, size: u64, in_order: bool, random: Random) -> Sending {
        Sending {
            number,
            size,
            in_order,
            random,
            sent: Sent {
                sequences: Vec::new(alloc),
                events: Vec::new(alloc),
            },
        }
    }

    pub fn into_sent(self) -> Sent {
        self.sent
    }

    /// What decides its turns.
    pub fn random(&mut self) -> &mut Random {
        &mut self.random
    }

    fn write<I: Inlet<Event>>(&mut self, inlet: &mut I, s: u64) -> Result<(), Fault> {
        let event = Event {
            first: self.number,
            second: self.sent.events.len() as u64,
        };
        inlet.write(s, event)?;
        self.sent.sequences.push(s)?;
        self.sent.events.push(event)?;
        Ok(())
    }

    fn write_all<I: Inlet<Event>>(&mut self, inlet: &mut I, claimed: Claimed) -> Result<(), Fault> {
        for s in claimed.lo..claimed.hi {
            self.write(inlet, s)?;
        }
        self.write(inlet, claimed.hi)
    }

    /// Publishes a claim in two parts, of which either may come first where no order is asked for.
    fn publish_parts<I: Inlet<Event>>(
        &mut self,
        inlet: &mut I,
        low: Claimed,
        high: Claimed,
    ) -> Result<(), Fault> {
        let turned = !self.in_order && self.random.below(2) == 0;
        let (first, second) = if turned { (high, low) } else { (low, high) };
        inlet.publish(first.lo, first.hi)?;
        self.random.pause();
        Ok(inlet.publish(second.lo, second.hi)?)
    }

    fn publish<I: Inlet<Event>>(&mut self, inlet: &mut I, claimed: Claimed) -> Result<(), Fault> {
        let Claimed { lo, hi } = claimed;
        if lo == hi || self.random.below(2) == 0 {
            return Ok(inlet.publish(lo, hi)?);
        }
        let last = lo.wrapping_add(self.random.below(hi.wrapping_sub(lo)));
        let low = Claimed { lo, hi: last };
        let high = Claimed {
            lo: last.wrapping_add(1),
            hi,
        };
        self.publish_parts(inlet, low, high)
    }

    /// Claims, writes and publishes for a stretch of turns, or until a claim is refused because the
    /// exchange is halted. Some claims ask for nothing, or for more than there are slots.
    pub fn send<I: Inlet<Event>>(&mut self, inlet: &mut I) -> Result<Stretch, Fault> {
        for _ in 0..TURNS {
            self.random.pause();
            let count = self.random.below(self.size.saturating_add(2));
            match inlet.try_claim(count) {
                Ok(claimed) => {
                    self.write_all(inlet, claimed)?;
                    self.random.pause();
                    self.publish(inlet, claimed)?;
                }
                Err(Trouble::Refused(Refusal::BadCount)) if count == 0 || count > self.size => {}
                Err(Trouble::Refused(Refusal::NoRoom)) => {}
                Err(Trouble::Refused(Refusal::Halted)) => return Ok(Stretch::Left),
                Err(trouble) => return Err(trouble.into()),
            }
        }
        Ok(Stretch::Goes)
    }
}
