//! What a ring is made for, and the places of its words.

ghost use Rattle.std.specs.Prelude.{◌≡◌, ◌^◌, ◌<◌, ◌≤◌, map, IfOk};
ghost use Rattle.dr_graph.specs.Meaning.Graph.{upstreams_of, finals as finals_of};
ghost use Rattle.dr_plain.specs.Meaning.Shape.{handlers_of};
ghost use Rattle.dr_plain.specs.Meaning.Words.{slot_of, slots_of, words_of};
ghost use Rattle.dr_plain.specs.Calls.Plans.{IsPlan};

use dr_cells::Cells;
use dr_graph::Graph;
use dr_runs::copy_upstreams;
use dr_seq::Size;
use std::alloc::{AllocError, Global};
use std::marker::Model;

/// The graph of a ring's handlers, by each handler's direct upstreams, with its final handlers, the
/// size, the limit of sequences, and the cells of its events.
#[derive(Drop)]
pub struct Plan<T> {
    size: Size,
    limit: u64,
    slots: usize,
    upstreams: Vec<Vec<usize>>,
    finals: Vec<usize>,
    cells: Cells<T>,
}

impl<T> Model for Plan<T> {
    ghost use Rattle.std.specs.Prelude.{map};
    ghost use Rattle.dr_plain.specs.Meaning.Shape.{Shape};
    ghost use Rattle.dr_plain.specs.Inside.Plans.{PlanFits};

    ghost Value = { Shape };

    ghost view = { λ p. record { upstreams = map (λ v. v.items) p.upstreams.items; size = p.size; limit = p.limit; strip = p.cells.ptr } };

    ghost invariant = { λ p. PlanFits (record { upstreams = map (λ v. v.items) p.upstreams.items; size = p.size; limit = p.limit; strip = p.cells.ptr }) p.finals.items p.slots };
}

impl<T> Plan<T> {
    /// The plan of a ring for a graph, which it copies.
    pub(crate) fn of(
        alloc: Global,
        graph: &Graph,
        size: Size,
        limit: u64,
        cells: Cells<T>,
    ) -> Result<Plan<T>, AllocError>
        requires limit { (0 < limit) × (limit ≤ 2 ^ 62) }
        ensures made { IfOk result (λ plan. plan ≡ record { upstreams = graph.now.upstreams; size = size; limit = limit; strip = cells.ptr }) }
        ensures plan { IfOk result (λ plan. IsPlan plan) }
    {
        let upstreams = copy_upstreams(alloc, graph)?;
        let finals = Vec::from_slice(alloc, graph.finals())?;
        let slots = graph.len() * size.get() as usize;
        Ok(Plan {
            size,
            limit,
            slots,
            upstreams,
            finals,
            cells,
        })
    }

    /// How many slots the ring has.
    pub fn size(&self) -> Size
        ensures { result ≡ self.now.size }
    {
        self.size
    }

    /// How many sequences may be claimed in all.
    pub fn limit(&self) -> u64
        ensures { result ≡ self.now.limit }
    {
        self.limit
    }

    /// How many handlers there are.
    pub fn handlers(&self) -> usize
        // It is the number of handlers, of which there are at most 16.
        ensures count { result ≡ handlers_of self.now }
        ensures few { result ≤ 16 }
    {
        self.upstreams.len()
    }

    /// The direct upstreams of a handler.
    pub fn upstreams(&self, handler: usize) -> &[usize]
        requires { handler < handlers_of self.now }
        ensures { result.now ≡ upstreams_of self.now.upstreams handler }
    {
        self.upstreams[handler].as_slice()
    }

    /// The final handlers, which gate the sender.
    pub fn finals(&self) -> &[usize]
        ensures { result.now ≡ finals_of self.now.upstreams }
    {
        self.finals.as_slice()
    }

    /// Where the events lie.
    pub fn cells(&self) -> Cells<T>
        ensures { result.ptr ≡ self.now.strip }
    {
        self.cells
    }

    /// The slot of a handler's part of a sequence.
    pub fn slot(&self, handler: usize, sequence: u64) -> usize
        requires { handler < handlers_of self.now }
        // It is the place of the sequence's cell in the handler's lane, one of the ring's slots.
        ensures place { result ≡ slot_of self.now handler sequence }
        ensures inside { result < slots_of self.now }
    {
        handler * self.size.get() as usize + self.size.slot(sequence)
    }

    /// How many slots the ring has in all its lanes.
    pub fn slots(&self) -> usize
        ensures { result ≡ slots_of self.now }
    {
        self.slots
    }

    /// How many words the ring has.
    pub fn words(&self) -> usize
        ensures { result ≡ words_of self.now }
    {
        32 + 16 * self.upstreams.len()
    }
}
