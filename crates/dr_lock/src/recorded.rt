//! A core with the history of the calls that it kept.

ghost use Rattle.std.specs.Prelude.{◌≡◌, ◌+◌, ◌<◌, ◌≤◌, ◌^◌, ◌⊎◌, ◌++◌, [], Ok, drop, length, take, IfOk, OnErr, slice_index};
ghost use Rattle.dr_graph.specs.Calls.Answer.{Answers};
ghost use Rattle.dr_core.specs.Calls.CoreView.{retired_in};
ghost use Rattle.dr_meaning.specs.Meaning.Machine.{State, handlers, producers as producers_of, setup_of, step};
ghost use Rattle.dr_meaning.specs.Calls.OpenFault.{open_fault};
ghost use Rattle.dr_meaning.specs.Meaning.Progress.{NobodyIsStuck};
ghost use Rattle.dr_meaning.specs.Meaning.Runs.{count_in};
ghost use Rattle.dr_core.specs.Calls.Shows.{IsOpened, Shows, IsStep};
ghost use Rattle.dr_lock.specs.Meaning.History.{IsRecorded, asked, entries_after};
ghost use Rattle.dr_lock.specs.Calls.Lock.{IsAnswer};

use crate::entry::{Entry, is_kept};
use dr_core::{Core, every_step_leads_on};
use dr_graph::Graph;
use dr_meaning::{
    Command, Mode, OpenFault, Refusal, Reply, every_transcript_is_lawful, nobody_is_stuck,
};
use dr_seq::Size;
use std::alloc::{AllocError, Global};
use std::marker::Model;

/// A core and the history of the calls that it kept, which leads from the opening to what the core
/// shows, and so has the five laws.
#[derive(Drop)]
pub struct Recorded<E> {
    core: Core<E>,
    entries: Vec<Entry<E>>,
    values: Vec<E>,
}

impl<E> Model for Recorded<E> {
    ghost use Rattle.dr_lock.specs.Meaning.History.{RecordedView, IsRecorded};
    ghost use Rattle.std.specs.Prelude.{vec_capacity};

    ghost Value = { RecordedView E };

    ghost view = { λ a. record { history = record { core = a.core; entries = a.entries.items; values = a.values.items }; entry_room = vec_capacity a.entries; value_room = vec_capacity a.values } };

    ghost invariant = { λ a. IsRecorded (record { core = a.core; entries = a.entries.items; values = a.values.items }) };
}

impl<E: Copy> Recorded<E> {
    /// Opens a core with an empty history, which has room for so many entries and for so many
    /// events of batches. It spends the graph, at a fault too. The limit is how many sequences
    /// there will ever be. Until they are written to, the slots hold `blank`.
    pub fn open(
        alloc: Global,
        graph: Graph,
        size: Size,
        mode: Mode,
        limit: u64,
        blank: E,
        entries: usize,
        events: usize,
    ) -> Result<Recorded<E>, OpenFault>
        // The new core has this setup and the graph's names, and shows the machine's opening state.
        ensures opened { IfOk result (λ recorded. IsOpened recorded.history.core (setup_of graph.upstreams size mode limit) graph.names) }
        // Nothing is kept yet, and there is room for so many entries and events.
        ensures empty { IfOk result (λ recorded. (recorded.history.entries ≡ []) × (recorded.history.values ≡ [])) }
        ensures room { IfOk result (λ recorded. (recorded.entry_room ≡ entries) × (recorded.value_room ≡ events)) }
        // A bad number of producers and then a bad limit are refused; else only memory may run out.
        ensures answer { Answers OpenFault.NoMemory (open_fault mode limit) result }
    {
        every_transcript_is_lawful::<E>();
        let core = Core::open(alloc, graph, size, mode, limit, blank)?;
        let entries = Vec::with_capacity(alloc, entries)?;
        let values = Vec::with_capacity(alloc, events)?;
        Ok(Recorded {
            core,
            entries,
            values,
        })
    }

    /// Who follows whom.
    pub fn graph(&self) -> &Graph
        // It has the names and the upstreams of the graph that the core was opened over.
        ensures names { result.now.names ≡ self.now.history.core.names }
        ensures upstreams { result.now.upstreams ≡ self.now.history.core.setup.upstreams }
    {
        self.core.graph()
    }

    /// How many producers there are, numbered from 0.
    pub fn producers(&self) -> u64
        ensures { result ≡ producers_of self.now.history.core.setup.mode }
    {
        self.core.producers()
    }

    /// How many events a handler took.
    pub(crate) fn taken(&self, h: usize) -> u64
        requires { h < handlers self.now.history.core.setup }
        ensures { result ≡ slice_index self.now.history.core.taken h }
    {
        self.core.taken(h)
    }

    /// Whether a handler is retired.
    pub(crate) fn is_retired(&self, h: usize) -> bool
        requires { h < handlers self.now.history.core.setup }
        ensures { result ≡ retired_in self.now.history.core h }
    {
        self.core.is_retired(h)
    }

    /// The calls that were kept, in order: all but those that were refused or answered `Gating` or
    /// `Idle`, which change nothing. With the events of their batches they lead from the opening to
    /// what the core shows, and so they have the five laws.
    pub fn history(&self) -> &[Entry<E>]
        // They are the calls that were kept.
        ensures entries { result.now ≡ self.now.history.entries }
        // With the events of their batches they lead to a state that the core shows, and have the five laws.
        ensures recorded { IsRecorded self.now.history }
    {
        &self.entries
    }

    /// That where the history leads, whoever waits, waits for one that can go on. It does nothing when
    /// it runs: its contract is the theorem.
    pub fn is_never_stuck(&self)
        ensures { (recorded : IsRecorded self.now.history) × NobodyIsStuck self.now.history.core.setup recorded.runs.state }
    {
        nobody_is_stuck::<E>();
        let _handlers = self.core.graph().len();
    }

    /// The events of the kept batches, joined in order.
    pub fn values(&self) -> &[E]
        // They are the events of the kept batches.
        ensures values { result.now ≡ self.now.history.values }
        // The history leads to a state that the core shows, and has the five laws.
        ensures recorded { IsRecorded self.now.history }
    {
        &self.values
    }

    /// The core's call, kept in the history unless it is refused or answers `Gating` or `Idle`. For
    /// a poll `out` holds as many events as it asks for; a batch stands at its front. Memory is taken
    /// first, and only where the history has no room left for one entry and for the events of the
    /// reply. Where an allocation fails nothing has changed.
    pub fn call(&mut self, command: Command<E>, out: &mut [E]) -> Result<Reply, AllocError>
        requires { asked command ≤ length out.old }
        // On each state that the core shows the machine gives this reply and the events in front in `out`.
        ensures step { IfOk result (λ reply. IsStep self.old.history.core command reply (take (count_in reply) out.new) self.new.history.core) }
        // The machine answers so after some history that goes on from this one.
        ensures answer { IfOk result (λ reply. IsAnswer self.old.history command reply (take (count_in reply) out.new)) }
        // A batch fits into `out`.
        ensures fits { IfOk result (λ reply. count_in reply ≤ length out.new) }
        // The call and its events are added to the history, unless it is refused, `Gating` or `Idle`.
        ensures entries { IfOk result (λ reply. self.new.history.entries ≡ entries_after self.old.history.entries (record { command = command; reply = reply })) }
        ensures values { IfOk result (λ reply. self.new.history.values ≡ self.old.history.values ++ take (count_in reply) out.new) }
        // What lies in `out` behind the batch stays.
        ensures rest { IfOk result (λ reply. drop (count_in reply) out.new ≡ drop (count_in reply) out.old) }
        // A refusal leaves the history as it was, and where memory ran out `out` stays too.
        ensures refused { (refusal : Refusal) → result ≡ Ok (Reply.Refused refusal) → self.new.history ≡ self.old.history }
        ensures unchanged { OnErr result ((self.new.history ≡ self.old.history) × (out.new ≡ out.old)) }
        // Memory runs out only where room was missing for one entry more, or for the events of the reply.
        ensures memory { OnErr result ((m : State E) → Shows self.old.history.core m → (self.old.entry_room < length self.old.history.entries + 1) ⊎ (self.old.value_room < length self.old.history.values + length (step self.old.history.core.setup m command).values)) }
        // It has fewer than 2^64 entries, and loses no room.
        ensures counted { length self.new.history.entries < 2 ^ 64 }
        ensures room { (self.old.entry_room ≤ self.new.entry_room) × (self.old.value_room ≤ self.new.value_room) }
    {
        every_step_leads_on::<E>();
        let room = self.batch_len_of(command);
        self.entries.reserve(1)?;
        self.values.reserve(room)?;
        let reply = self.core.execute(command, out);
        if is_kept(reply) {
            self.entries.push_reserved(Entry { command, reply });
            self.values.extend_from_slice(&out[..reply.count()])?;
        }
        Ok(reply)
    }

    /// How many events a command would be given now.
    fn batch_len_of(&self, command: Command<E>) -> usize
        ensures { (m : State E) → Shows self.now.history.core m → result ≡ length (step self.now.history.core.setup m command).values }
    {
        match command {
            Command::Poll { h, max } => match self.core.ready(h) {
                Ok(ready) => max.min(ready as usize),
                Err(_) => 0,
            },
            _ => 0,
        }
    }
}
