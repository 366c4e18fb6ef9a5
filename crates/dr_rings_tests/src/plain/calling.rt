//! The ends of this ring, as tests of any ring call them.

ghost use Rattle.dr_plain.specs.Calls.Ends.{sender_place, receiver_place};
ghost use Rattle.dr_plain.specs.Calls.Settling.{AreAllEnds};

use super::Ends;
use crate::answering::{answer_of_inlet, answer_of_outlet, answer_of_receiver, answer_of_sender};
use crate::calls::{Call, done};
use crate::counted::{Counted, Counting};
use crate::ends::{AllEnds, Sends, Shows};
use crate::playing::Came;
use crate::texts::{ShowsTexts, are_texts};
use dr_meaning::{Claimed, Polled, Refusal, Reply};
use dr_plain::{Receiver, Sender, Settled, settle_all};
use dr_seq::Event;
use std::alloc::Global;
use std::process::Abort;

impl<T: Drop> Sends<T> for Sender<T> {
    ghost use Rattle.dr_plain.specs.Calls.Ends.{SenderPlace};

    ghost Place = { SenderPlace };

    ghost place = { sender_place };

    fn claim(&mut self, n: u64) -> Result<Claimed, Refusal> {
        self.try_claim(n)
    }

    fn write(&mut self, s: u64, event: T) -> Result<(), Refusal> {
        Sender::write(self, s, event)
    }

    fn update<F: FnOnce(&mut T) + Drop>(&mut self, s: u64, change: F) -> Result<(), Refusal> {
        match Sender::update(self, s, change) {
            Ok(()) => Ok(()),
            Err(refusal) => Err(refusal),
        }
    }

    fn publish(&mut self, lo: u64, hi: u64) -> Result<(), Refusal> {
        Sender::publish(self, lo, hi)
    }
}

impl<T> Shows<T> for Receiver<T> {
    ghost use Rattle.dr_plain.specs.Calls.Ends.{ReceiverPlace};

    ghost Place = { ReceiverPlace };

    ghost place = { receiver_place };

    fn poll(&mut self, room: u64) -> Result<Polled, Refusal> {
        Receiver::poll(self, room)
    }

    fn complete(&mut self, upto: u64) -> Result<(), Refusal> {
        Receiver::complete(self, upto)
    }

    fn event(&self, s: u64) -> Option<&T> {
        Receiver::event(self, s)
    }
}

impl ShowsTexts for Receiver<String> {
    fn are_texts(&self, alloc: Global, lo: u64, hi: u64) -> bool {
        are_texts(self.events(), alloc, lo, hi)
    }
}

fn came<T>(settled: &Settled<T>) -> Came {
    let mut handlers = [(0u64, 0u64); 3];
    for (h, counts) in handlers.iter_mut().enumerate() {
        if h < settled.handlers() {
            *counts = (settled.taken(h), settled.completed(h));
        }
    }
    Came {
        claimed: settled.claimed(),
        published: Some(settled.published()),
        halted: None,
        many: settled.handlers(),
        handlers,
        events: None,
    }
}

/// By the calls that copy events.
impl AllEnds for Ends<Event> {
    ghost are_all = { λ e. AreAllEnds e.sender e.receivers.items e.halter };

    fn answer<R: Abort>(&mut self, rt: &R, who: usize, call: Call, out: &mut [Event; 8]) -> Reply {
        match call {
            Call::Close => done(self.sender.close(), Reply::Halting),
            Call::Halt => {
                self.halter.halt();
                Reply::Halting
            }
            Call::Poll(_) | Call::Complete(_) => {
                assert!(rt; who < self.receivers.len());
                answer_of_outlet(rt, &mut self.receivers[who], call, out)
            }
            _ => answer_of_inlet(&mut self.sender, call),
        }
    }

    fn finish(self) -> Came {
        let (settled, _) = settle_all(self.sender, self.receivers, self.halter);
        came(&settled)
    }
}

/// By the calls that move and show them.
impl AllEnds for Counting<Ends<Counted>> {
    ghost are_all = { λ c. AreAllEnds c.ends.sender c.ends.receivers.items c.ends.halter };

    fn answer<R: Abort>(&mut self, rt: &R, who: usize, call: Call, out: &mut [Event; 8]) -> Reply {
        match call {
            Call::Halt => {
                self.ends.halter.halt();
                Reply::Halting
            }
            Call::Poll(_) | Call::Complete(_) => {
                assert!(rt; who < self.ends.receivers.len());
                answer_of_receiver(rt, &mut self.ends.receivers[who], call, out)
            }
            _ => answer_of_sender(rt, &self.alive, &mut self.ends.sender, call),
        }
    }

    fn check_alive<R: Abort>(&self, rt: &R) {
        self.check_shares(rt);
    }

    fn finish(self) -> Came {
        let Ends {
            sender,
            receivers,
            halter,
        } = self.ends;
        let (settled, events) = settle_all(sender, receivers, halter);
        let mut told = came(&settled);
        told.events = Some(events);
        told
    }
}
