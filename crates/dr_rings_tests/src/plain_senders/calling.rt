//! The ends of this ring, as tests of any ring call them.

ghost use Rattle.std.specs.Prelude.{◌≡◌};
ghost use Rattle.dr_plain_senders.specs.Calls.Ends.{sender_place, receiver_place};
ghost use Rattle.dr_plain_senders.specs.Calls.Settling.{AreAllEnds};

use super::Ends;
use crate::answering::{answer_of_receiver, answer_of_sender};
use crate::calls::Call;
use crate::counted::{Counted, Counting};
use crate::ends::{AllEnds, Sends, Shows};
use crate::playing::Came;
use crate::texts::{ShowsTexts, are_texts};
use dr_meaning::{Claimed, Polled, Refusal, Reply};
use dr_plain_senders::{ClaimFault, Receiver, Sender, Settled, settle_all};
use dr_seq::Event;
use std::alloc::Global;
use std::process::Abort;

impl<T: Drop> Sends<T> for Sender<T> {
    ghost use Rattle.dr_plain_senders.specs.Calls.Ends.{EndPlace};

    ghost Place = { EndPlace T };

    ghost place = { sender_place };

    fn claim(&mut self, n: u64) -> Result<Claimed, Refusal> {
        match self.try_claim(n) {
            Ok(claimed) => Ok(claimed),
            Err(ClaimFault::Refused(refusal)) => Err(refusal),
            Err(ClaimFault::Contended) => Err(Refusal::NoProducer),
        }
    }

    fn write(&mut self, s: u64, event: T) -> Result<(), Refusal> {
        Sender::write(self, s, event)
    }

    fn update<F: FnOnce(&mut T) + Drop>(&mut self, s: u64, change: F) -> Result<(), Refusal> {
        match Sender::update(self, s, change) {
            Ok(()) => Ok(()),
            Err(refusal) => Err(refusal),
        }
    }

    fn publish(&mut self, lo: u64, hi: u64) -> Result<(), Refusal> {
        Sender::publish(self, lo, hi)
    }
}

impl<T> Shows<T> for Receiver<T> {
    ghost use Rattle.dr_plain_senders.specs.Calls.Ends.{EndPlace};

    ghost Place = { EndPlace T };

    ghost place = { receiver_place };

    fn poll(&mut self, room: u64) -> Result<Polled, Refusal> {
        Receiver::poll(self, room)
    }

    fn complete(&mut self, upto: u64) -> Result<(), Refusal> {
        Receiver::complete(self, upto)
    }

    fn event(&self, s: u64) -> Option<&T> {
        Receiver::event(self, s)
    }
}

impl ShowsTexts for Receiver<String> {
    fn are_texts(&self, alloc: Global, lo: u64, hi: u64) -> bool {
        are_texts(self.events(), alloc, lo, hi)
    }
}

fn came(settled: &Settled<Counted>) -> Came {
    let mut handlers = [(0u64, 0u64); 3];
    for (h, counts) in handlers.iter_mut().enumerate() {
        if h < settled.handlers() {
            *counts = (settled.taken(h), settled.completed(h));
        }
    }
    Came {
        claimed: settled.claimed(),
        published: None,
        halted: Some(settled.is_halted()),
        many: settled.handlers(),
        handlers,
        events: None,
    }
}

fn halt_by(sender: &mut Sender<Counted>) -> Reply
    ensures { sender_place sender.new ≡ sender_place sender.old }
{
    sender.halt();
    Reply::Halting
}

impl AllEnds for Counting<Ends<Counted>> {
    ghost are_all = { λ c. AreAllEnds c.ends.senders.items c.ends.receivers.items c.ends.halter };

    fn answer<R: Abort>(&mut self, rt: &R, who: usize, call: Call, out: &mut [Event; 8]) -> Reply {
        match call {
            Call::Halt => {
                self.ends.halter.halt();
                Reply::Halting
            }
            Call::HaltIt => {
                assert!(rt; who < self.ends.senders.len());
                halt_by(&mut self.ends.senders[who])
            }
            Call::Poll(_) | Call::Complete(_) => {
                assert!(rt; who < self.ends.receivers.len());
                answer_of_receiver(rt, &mut self.ends.receivers[who], call, out)
            }
            _ => {
                assert!(rt; who < self.ends.senders.len());
                answer_of_sender(rt, &self.alive, &mut self.ends.senders[who], call)
            }
        }
    }

    fn check_alive<R: Abort>(&self, rt: &R) {
        self.check_shares(rt);
    }

    fn finish(self) -> Came {
        let Ends {
            senders,
            receivers,
            halter,
        } = self.ends;
        let (settled, events) = settle_all(senders, receivers, halter);
        let mut told = came(&settled);
        told.events = Some(events);
        told
    }
}
