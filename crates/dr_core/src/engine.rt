//! The core: the exchange on one thread.

ghost use Rattle.std.specs.Prelude.{◌≡◌, ◌<◌, IfOk, ◌≤◌, false, slice_index};
ghost use Rattle.dr_graph.specs.Calls.Answer.{Answers};
ghost use Rattle.dr_core.specs.Calls.CoreView.{retired_in};
ghost use Rattle.dr_core.specs.Calls.Going.{IsNeverStuck};
ghost use Rattle.dr_core.specs.Calls.Shows.{IsOpened};
ghost use Rattle.dr_meaning.specs.Meaning.Machine.{handlers, producers as producers_of, setup_of};
ghost use Rattle.dr_meaning.specs.Calls.OpenFault.{has_bad_producers, is_bad_limit, open_fault};
ghost use Rattle.dr_core.specs.Calls.Reached.{IsReached};

use crate::engine::opening::{gating_at_first, none_counted, none_marked, owners_for};
use dr_graph::Graph;
use dr_meaning::{Mode, OpenFault, is_valid_limit};
use dr_seq::{GateCache, Rounds, Size, Slots};
use std::alloc::{AllocError, Global};
use std::marker::Model;

mod execute;
mod opening;
mod polling;
mod publishing;
mod retiring;

/// The exchange on one thread: slots that are used again, a graph of handlers, and counts.
///
/// Contracts see what it remembers of the machine's state, and say of each call that it is the
/// machine's step on every state that the core shows.
#[derive(Drop)]
pub struct Core<E> {
    graph: Graph,
    size: Size,
    mode: Mode,
    limit: u64,
    published: Rounds,
    written: Rounds,
    owners: Vec<u64>,
    events: Slots<E>,
    blank: E,
    gate: GateCache,
    // A claim of sequences that all lie below this one is granted by one test. It is the lesser of the
    // limit and the remembered count with the size; after a halt it is what is claimed.
    claimable: u64,
    next: u64,
    front: u64,
    // All sequences from the front up to this one are written.
    filled: u64,
    taken: Vec<u64>,
    completed: Vec<u64>,
    halted: bool,
    retired: Vec<bool>,
    gating: Vec<bool>,
}

impl<E> Model for Core<E> {
    ghost use Rattle.dr_core.specs.Calls.CoreView.{CoreView};

    ghost Value = { CoreView E };

    ghost use Rattle.dr_core.specs.Inside.Fields.{view_of, IsKept};

    ghost view = { view_of };

    ghost invariant = { IsKept };
}

impl<E: Copy> Core<E> {
    /// Opens a core over a graph of handlers, with nothing claimed. It spends the graph, at a
    /// fault too. The limit is how many sequences there will ever be. Until they are written to,
    /// the slots hold `blank`, of which no call tells: a new core is seen the same whatever it is.
    #[tactic(auto, using(dr_graph::proofs::Answering::answering))]
    pub fn open(
        alloc: Global,
        graph: Graph,
        size: Size,
        mode: Mode,
        limit: u64,
        blank: E,
    ) -> Result<Core<E>, OpenFault>
        // A new core has this setup and the graph's names, and shows the machine's opening state.
        ensures opened { IfOk result (λ core. IsOpened core (setup_of graph.upstreams size mode limit) graph.names) }
        // A bad number of producers and then a bad limit are refused; else only a lack of memory is.
        ensures answer { Answers OpenFault.NoMemory (open_fault mode limit) result }
    {
        if !mode.is_valid() {
            return Err(OpenFault::BadProducers);
        }
        if !is_valid_limit(limit) {
            return Err(OpenFault::BadLimit);
        }
        Ok(Core::open_valid(alloc, graph, size, mode, limit, blank)?)
    }

    /// Opens a core as [`Core::open`] does, where the mode and the limit are known to be valid: an
    /// error is that memory ran out.
    pub fn open_valid(
        alloc: Global,
        graph: Graph,
        size: Size,
        mode: Mode,
        limit: u64,
        blank: E,
    ) -> Result<Core<E>, AllocError>
        requires mode { has_bad_producers mode ≡ false }
        requires limit { is_bad_limit limit ≡ false }
        ensures { IfOk result (λ core. IsOpened core (setup_of graph.upstreams size mode limit) graph.names) }
    {
        let (published, written) = none_marked(alloc, size)?;
        let owners = owners_for(alloc, mode, size)?;
        let events = Slots::new(alloc, size, blank)?;
        let (taken, completed, retired) = none_counted(alloc, graph.len())?;
        let gating = gating_at_first(alloc, &graph, &retired)?;
        Ok(Core {
            graph,
            size,
            mode,
            limit,
            published,
            written,
            owners,
            events,
            blank,
            gate: GateCache::new(),
            claimable: limit.min(size.get()),
            next: 0,
            front: 0,
            filled: 0,
            taken,
            completed,
            halted: false,
            retired,
            gating,
        })
    }

    /// What fills a buffer until events are taken into it.
    pub(crate) fn blank(&self) -> E {
        self.blank
    }

    /// Who follows whom.
    pub fn graph(&self) -> &Graph
        // It has the names and the upstreams of the graph that the core was opened over.
        ensures names { result.now.names ≡ self.now.names }
        ensures upstreams { result.now.upstreams ≡ self.now.setup.upstreams }
    {
        &self.graph
    }

    /// How many producers there are, numbered from 0.
    pub fn producers(&self) -> u64
        ensures { result ≡ producers_of self.now.setup.mode }
    {
        self.mode.producers()
    }

    /// How many slots there are.
    pub fn size(&self) -> Size
        ensures { result ≡ self.now.setup.size }
    {
        self.size
    }

    /// How many sequences are claimed.
    pub fn next(&self) -> u64
        // It is the number of claimed sequences, which is never above the limit.
        ensures value { result ≡ self.now.next }
        ensures limit { result ≤ self.now.setup.limit }

        // Of every core: it shows a state, to which some transcript leads from its opening.
        ensures reached { IsReached self.now }
    {
        self.next
    }

    /// The least sequence that is not published.
    pub fn front(&self) -> u64
        ensures { result ≡ self.now.front }
    {
        self.front
    }

    /// How many events a handler took: the next sequence that it would receive.
    pub fn taken(&self, h: usize) -> u64
        requires { h < handlers self.now.setup }
        ensures { result ≡ slice_index self.now.taken h }
    {
        self.taken[h]
    }

    /// How many events a handler completed: LMAX's sequence of the handler, plus 1.
    pub fn completed(&self, h: usize) -> u64
        requires { h < handlers self.now.setup }
        ensures { result ≡ slice_index self.now.completed h }
    {
        self.completed[h]
    }

    /// Whether no more sequences are given.
    pub fn is_halted(&self) -> bool
        ensures { result ≡ self.now.halted }
    {
        self.halted
    }

    /// That whoever waits in this core, waits for one that can go on. It does nothing when it runs: its
    /// contract is the theorem.
    pub fn is_never_stuck(&self)
        // It shows a state, to which a transcript leads: nobody is stuck there, and all claimed can finish.
        ensures { IsNeverStuck self.now }
    {
        let _next = self.next;
    }

    /// Whether a handler is retired.
    pub fn is_retired(&self, h: usize) -> bool
        requires { h < handlers self.now.setup }
        ensures { result ≡ retired_in self.now h }
    {
        self.retired[h]
    }
}
