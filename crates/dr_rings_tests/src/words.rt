//! The ring over atomic words, with one sender.

ghost use Rattle.dr_ring.specs.Calls.Settling.{AreAllEnds};

mod looks;
mod threads;

use crate::answering::{answer_of_inlet, answer_of_outlet};
use crate::calls::{Call, done};
use crate::checks::check;
use crate::ends::AllEnds;
use crate::graphs::{Shape, graph};
use crate::playing::{Came, check_run};
use crate::rows::RUNS;
use dr_meaning::Reply;
use dr_ring::{Halter, Receiver, Sender, Settled, ring, settle, settle_all};
use dr_seq::{Event, Size};
use std::alloc::Global;
use std::process::Abort;

#[derive(Drop)]
pub struct Ends {
    pub sender: Sender,
    pub receivers: Vec<Receiver>,
    pub halter: Halter,
}

pub fn open(rt: &impl Abort, alloc: Global, shape: Shape, size: u64, limit: u64) -> Ends
    ensures { AreAllEnds result.sender result.receivers.items result.halter }
{
    let size = Size::new(size).expect(rt, "a size");
    let graph = graph(rt, alloc, shape);
    let made = ring(alloc, &graph, size, limit);
    let (sender, receivers, halter) = made.expect(rt, "a ring");
    Ends {
        sender,
        receivers,
        halter,
    }
}

fn came(settled: &Settled) -> Came {
    let mut handlers = [(0u64, 0u64); 3];
    for (h, counts) in handlers.iter_mut().enumerate() {
        if h < settled.handlers() {
            *counts = (settled.taken(h), settled.completed(h));
        }
    }
    Came {
        claimed: settled.claimed(),
        published: Some(settled.published()),
        halted: None,
        many: settled.handlers(),
        handlers,
        events: None,
    }
}

impl AllEnds for Ends {
    ghost are_all = { λ e. AreAllEnds e.sender e.receivers.items e.halter };

    fn answer<R: Abort>(&mut self, rt: &R, who: usize, call: Call, out: &mut [Event; 8]) -> Reply {
        match call {
            Call::Close => done(self.sender.close(), Reply::Halting),
            Call::Halt => {
                self.halter.halt();
                Reply::Halting
            }
            Call::Poll(_) | Call::Complete(_) => {
                assert!(rt; who < self.receivers.len());
                answer_of_outlet(rt, &mut self.receivers[who], call, out)
            }
            _ => answer_of_inlet(&mut self.sender, call),
        }
    }

    fn finish(self) -> Came {
        let settled = settle(self.sender, self.receivers);
        came(&settled)
    }
}

#[test]
fn ends_come_together_with_their_halter(rt: HostRuntime) {
    let ends = open(&rt, rt.alloc(), Shape::Alone, 4, 8);
    let settled = settle_all(ends.sender, ends.receivers, ends.halter);
    check(&rt, settled.claimed(), 0);
    check(&rt, settled.handlers(), 1);
}

#[test]
fn worked_rows(rt: HostRuntime) {
    for run in &RUNS {
        let ends = open(&rt, rt.alloc(), run.shape, run.size, run.limit);
        let _came = check_run(&rt, ends, run);
    }
}
