//! A handler retires: it takes no more events, and claims no longer wait for it.

ghost use Rattle.std.specs.Prelude.{◌≡◌, ◌≤◌, ◌==◌, ◌||◌, not, [], length, OnErr};
ghost use Rattle.dr_graph.specs.Meaning.Graph.{flagged, is_some_left};
ghost use Rattle.dr_core.specs.Calls.CoreView.{AreGating, gate_of};
ghost use Rattle.dr_core.specs.Calls.Shows.{IsStep};
ghost use Rattle.dr_meaning.specs.Calls.Replies.{unit_reply};

use crate::engine::Core;
use dr_graph::Graph;
use dr_meaning::{Command, Refusal, Reply};

impl<E: Copy> Core<E> {
    /// A handler takes no more events, and claims no longer wait for it. All its followers are
    /// retired before, and some other handler is left. Its counts stay as they are.
    pub fn retire(&mut self, h: usize) -> Result<(), Refusal>
        // The machine's retirement, with its refusals in order; a refused one leaves the core as it was.
        ensures step { IsStep self.old (Command.Retire h) (unit_reply Reply.Retired result) [] self.new }
        ensures refused { OnErr result (self.new ≡ self.old) }
        // The least count for which claims wait does not fall.
        ensures room { gate_of self.old ≤ gate_of self.new }
    {
        if h >= self.graph.len() {
            return Err(Refusal::NoHandler);
        }
        if self.retired[h] {
            return Err(Refusal::Retired);
        }
        if !self.graph.is_final_without(h, &self.retired) {
            return Err(Refusal::NotFinal);
        }
        if is_last(&self.retired, h) {
            return Err(Refusal::LastHandler);
        }
        self.retired[h] = true;
        flag_gating(&self.graph, &self.retired, &mut self.gating);
        Ok(())
    }
}

/// Flags the handlers that gate claims: those that are not gone, and upstream of none that is not.
pub(crate) fn flag_gating(graph: &Graph, gone: &[bool], flags: &mut [bool])
    requires gone { length gone.now ≡ length graph.now.upstreams }
    requires flags { length flags.old ≡ length graph.now.upstreams }
    ensures { AreGating flags.new graph.now.upstreams (flagged gone.now) }
{
    for h in 0..graph.len() {
        flags[h] = graph.is_final_without(h, gone);
    }
}

/// Whether no other handler is left.
fn is_last(retired: &[bool], h: usize) -> bool
    ensures { result ≡ not (is_some_left (length retired.now) (λ k. flagged retired.now k || k == h)) }
{
    for k in 0..retired.len() {
        if is_left_beside(retired[k], k, h) {
            return false;
        }
    }
    true
}

fn is_left_beside(retired: bool, k: usize, h: usize) -> bool
    ensures { result ≡ not (retired || k == h) }
{
    !retired && k != h
}
