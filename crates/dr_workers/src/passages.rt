//! A worker's passages of its gate.

ghost use Rattle.std.specs.Prelude.{◌≡◌};
ghost use Rattle.dr_workers.specs.Calls.Stops.{Passes, begins, fault_at_end, fault_in_trouble};

use crate::fault::WorkFault;
use crate::gate::{Gate, GateAnswer};
use dr_meaning::Trouble;

/// A worker's number, how often it passed its gate, and whether it was stopped there.
#[derive(Clone, Copy)]
pub(crate) struct Passages {
    who: usize,
    passage: u64,
    stopped: bool,
}

impl Passages {
    pub(crate) fn new(who: usize) -> Passages
        ensures { result ≡ begins who }
    {
        Passages {
            who,
            passage: 0,
            stopped: false,
        }
    }

    /// Passes the gate, unless the worker was stopped there.
    pub(crate) fn pass<G: Gate>(&mut self, gate: &G)
        ensures { Passes (G.may_stop gate.now) (G.must_stop gate.now) 1 self.old self.new }
    {
        if self.stopped {
            return;
        }
        match gate.pass(self.who, self.passage) {
            GateAnswer::Go => self.passage = self.passage.saturating_add(1),
            GateAnswer::Stop => self.stopped = true,
        }
    }

    /// What a worker answers that came to its end.
    pub(crate) fn at_end(self) -> Option<WorkFault>
        ensures { result ≡ fault_at_end self.stopped }
    {
        if self.stopped {
            Some(WorkFault::Stopped)
        } else {
            None
        }
    }

    /// What a worker answers that ends in trouble.
    pub(crate) fn in_trouble(self, trouble: Trouble) -> WorkFault
        ensures { result ≡ fault_in_trouble self.stopped trouble }
    {
        match trouble {
            Trouble::Memory => WorkFault::Memory,
            Trouble::Refused(_) if self.stopped => WorkFault::Stopped,
            Trouble::Refused(refusal) => WorkFault::Refused(refusal),
        }
    }
}
