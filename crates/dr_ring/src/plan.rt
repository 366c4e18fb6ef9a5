//! What a ring is made for, and the places of its words.

ghost use Rattle.std.specs.Prelude.{◌≡◌, ◌^◌, ◌<◌, ◌≤◌, map, IfOk};
ghost use Rattle.dr_graph.specs.Meaning.Graph.{upstreams_of, finals as finals_of};
ghost use Rattle.dr_ring.specs.Meaning.Shape.{handlers_of};
ghost use Rattle.dr_ring.specs.Meaning.Words.{payload_word as payload_word_of, words_of};
ghost use Rattle.dr_ring.specs.Calls.Plans.{IsPlan};

use dr_graph::Graph;
use dr_runs::copy_upstreams;
use dr_seq::Size;
use std::alloc::{AllocError, Global};
use std::marker::Model;

/// The graph of a ring's handlers, by each handler's direct upstreams, with its final handlers, the
/// size, the limit of sequences and the number of words.
#[derive(Drop)]
pub struct Plan {
    size: Size,
    limit: u64,
    words: usize,
    upstreams: Vec<Vec<usize>>,
    finals: Vec<usize>,
}

impl Model for Plan {
    ghost use Rattle.std.specs.Prelude.{map};
    ghost use Rattle.dr_ring.specs.Meaning.Shape.{Shape};
    ghost use Rattle.dr_ring.specs.Inside.Plans.{PlanFits};

    ghost Value = { Shape };

    ghost view = { λ p. record { upstreams = map (λ v. v.items) p.upstreams.items; size = p.size; limit = p.limit } };

    ghost invariant = { λ p. PlanFits (record { upstreams = map (λ v. v.items) p.upstreams.items; size = p.size; limit = p.limit }) p.finals.items p.words };
}

impl Plan {
    /// The plan of a ring for a graph, which it copies.
    pub(crate) fn of(
        alloc: Global,
        graph: &Graph,
        size: Size,
        limit: u64,
    ) -> Result<Plan, AllocError>
        requires limit { (0 < limit) × (limit ≤ 2 ^ 62) }
        ensures made { IfOk result (λ plan. plan ≡ record { upstreams = graph.now.upstreams; size = size; limit = limit }) }
        ensures plan { IfOk result (λ plan. IsPlan plan) }
    {
        let upstreams = copy_upstreams(alloc, graph)?;
        let finals = Vec::from_slice(alloc, graph.finals())?;
        let words = 32 + 16 * graph.len() + 2 * size.get() as usize;
        Ok(Plan {
            size,
            limit,
            words,
            upstreams,
            finals,
        })
    }

    /// How many slots the ring has.
    pub fn size(&self) -> Size
        ensures { result ≡ self.now.size }
    {
        self.size
    }

    /// How many sequences may be claimed in all.
    pub fn limit(&self) -> u64
        ensures { result ≡ self.now.limit }
    {
        self.limit
    }

    /// How many handlers there are.
    pub fn handlers(&self) -> usize
        // It is the number of handlers, of which there are at most 16.
        ensures count { result ≡ handlers_of self.now }
        ensures few { result ≤ 16 }
    {
        self.upstreams.len()
    }

    /// The direct upstreams of a handler.
    pub fn upstreams(&self, handler: usize) -> &[usize]
        requires { handler < handlers_of self.now }
        ensures { result.now ≡ upstreams_of self.now.upstreams handler }
    {
        self.upstreams[handler].as_slice()
    }

    /// The final handlers, which gate the sender.
    pub fn finals(&self) -> &[usize]
        ensures { result.now ≡ finals_of self.now.upstreams }
    {
        self.finals.as_slice()
    }

    /// The place of the first word (part 0) or the second (part 1) of the event in a sequence's slot.
    pub fn payload_word(&self, sequence: u64, part: usize) -> usize
        requires { part < 2 }
        // It is the place of this part in the slot of the sequence, which is one of the ring's words.
        ensures place { result ≡ payload_word_of self.now sequence part }
        ensures inside { result < words_of self.now }
    {
        32 + 16 * self.upstreams.len() + 2 * self.size.slot(sequence) + part
    }

    /// How many words the ring has.
    pub fn words(&self) -> usize
        ensures { result ≡ words_of self.now }
    {
        self.words
    }
}
