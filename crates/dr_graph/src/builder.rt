//! Declaring handlers by name, in groups, with the edges between them.

ghost use Rattle.std.specs.Prelude.{◌≡◌, ◌⊎◌, ◌↔◌, ◌++◌, false, [], ◌∷◌, IfOk, IfErr, OnErr, OnOk, IsOk, IsErrOf};
ghost use Rattle.dr_graph.specs.Calls.Answer.{Answers};
ghost use Rattle.dr_graph.specs.Meaning.Name.{given, index_of, new_names};
ghost use Rattle.dr_graph.specs.Meaning.Order.{HasCycle, is_upstream as is_upstream_of};
ghost use Rattle.dr_graph.specs.Meaning.Declaration.{declaring_fault, stranger_fault, following_fault, grouping_fault, followed_by, connected, IsDeclaration};
ghost use Rattle.dr_graph.specs.Meaning.Graph.{IsGraph, IsGraphOf};

use crate::built::{Graph, build};
use crate::edge::{Edge, is_upstream, with_followers};
use crate::fault::GraphFault;
use crate::group::Group;
use crate::name::{check_declared, check_group, check_new, declare, place_of, places_of};
use indexmap::IndexSet;
use std::alloc::Global;
use std::marker::Model;

/// Declares handlers and who follows whom, as LMAX's `handleEventsWith`, `then`, `after` and `and` do. Edges between
/// declared handlers, and so the refusal of cycles, are this project's own.
///
/// A call that is refused changes nothing, so that the builder serves on.
#[derive(Drop)]
pub struct GraphBuilder {
    names: IndexSet<String>,
    edges: Vec<Edge>,
    alloc: Global,
}

impl Model for GraphBuilder {
    ghost use Rattle.dr_graph.specs.Meaning.Declaration.{Declaration};

    ghost Value = { Declaration };

    ghost use Rattle.dr_graph.specs.Inside.KeptBuilder.{declaration_of, IsKeptBuilder};

    ghost view = { declaration_of };

    ghost invariant = { IsKeptBuilder };
}

impl GraphBuilder {
    /// A builder with no handlers. It keeps the allocator for the calls that grow it.
    pub fn new(alloc: Global) -> Self
        // Nothing is declared yet.
        ensures names { result.names ≡ [] }
        ensures edges { result.edges ≡ [] }
    {
        GraphBuilder {
            names: IndexSet::new(alloc),
            edges: Vec::new(alloc),
            alloc,
        }
    }

    /// Declares handlers without upstreams: each of them receives every published event.
    #[tactic(auto, using(crate::proofs::Answering::answering))]
    pub fn handle_with(&mut self, names: &[&str]) -> Result<Group, GraphFault>
        // The group has the given names in order, and they are declared after all before, without an edge.
        ensures group { IfOk result (λ group. group ≡ given names.now) }
        ensures declared { OnOk result (self.new ≡ record self.old { names = self.old.names ++ given names.now }) }
        // The first fault of the names is answered; where they have none, only a lack of memory is.
        ensures answer { Answers GraphFault.NoMemory (declaring_fault self.old.names (given names.now)) result }
        // A fault leaves the declaration as it was.
        ensures unchanged { OnErr result (self.new ≡ self.old) }
    {
        check_new(self.alloc, &self.names, names)?;
        let group = Group::of(self.alloc, names)?;
        declare(self.alloc, &mut self.names, names)?;
        Ok(group)
    }

    /// Declares handlers that follow a whole group: each receives an event once every handler of the group has completed
    /// it.
    #[tactic(auto, using(crate::proofs::Answering::answering))]
    pub fn then(&mut self, group: &Group, names: &[&str]) -> Result<Group, GraphFault>
        // The new group has the given names, and each of them follows every handler of the group.
        ensures group { IfOk result (λ followers. followers ≡ given names.now) }
        ensures declared { OnOk result (self.new ≡ followed_by self.old group.now (given names.now)) }
        // An undeclared name of the group is refused, then the names' first fault; else memory may run out.
        ensures answer { Answers GraphFault.NoMemory (following_fault self.old.names group.now (given names.now)) result }
        // A fault leaves the declaration as it was.
        ensures unchanged { OnErr result (self.new ≡ self.old) }
    {
        check_group(&self.names, group.names())?;
        check_new(self.alloc, &self.names, names)?;
        let followers = Group::of(self.alloc, names)?;
        let ups = places_of(self.alloc, &self.names, group.names())?;
        let first = self.names.len();
        let edges = with_followers(self.alloc, &self.edges, &ups, first, first + names.len())?;
        declare(self.alloc, &mut self.names, names)?;
        self.edges = edges;
        Ok(followers)
    }

    /// The group of some declared handlers. A name that stands twice counts once.
    #[tactic(auto, using(crate::proofs::Answering::answering, std::proofs::lemmas::Grind::common_steps))]
    pub fn after(&self, names: &[&str]) -> Result<Group, GraphFault>
        // The group has the names in the order given, each once.
        ensures group { IfOk result (λ group. group ≡ new_names [] (given names.now)) }
        // No names at all are refused, then one that is not declared; else only memory may run out.
        ensures answer { Answers GraphFault.NoMemory (grouping_fault self.now.names (given names.now)) result }
    {
        if names.is_empty() {
            return Err(GraphFault::EmptyGroup);
        }
        check_declared(&self.names, names)?;
        Ok(Group::of(self.alloc, names)?)
    }

    /// Both groups as one: the first's names, then those of the second that the first lacks.
    #[tactic(auto, using(crate::proofs::Answering::answering, std::proofs::lemmas::Grind::common_steps))]
    pub fn and(&self, first: &Group, second: &Group) -> Result<Group, GraphFault>
        // It has the first's names, then those that the second has more, each once.
        ensures group { IfOk result (λ group. group ≡ first.now ++ new_names first.now second.now) }
        // A name that is not declared is refused; else only memory may run out.
        ensures answer { Answers GraphFault.NoMemory (stranger_fault self.now.names (first.now ++ second.now)) result }
    {
        check_group(&self.names, first.names())?;
        check_group(&self.names, second.names())?;
        Ok(Group::joined(self.alloc, first, second)?)
    }

    /// Puts one declared handler before another. An edge from a handler to itself is accepted, and is a cycle. An edge
    /// that is there never lacks memory.
    #[tactic(auto, using(crate::proofs::Answering::answering))]
    pub fn edge(&mut self, up: &str, down: &str) -> Result<(), GraphFault>
        // The edge is declared, once, also where it was there before.
        ensures connected { OnOk result (self.new ≡ connected self.old up.now down.now) }
        // A name that is not declared is refused; else only memory may run out.
        ensures answer { Answers GraphFault.NoMemory (stranger_fault self.old.names (up.now ∷ down.now ∷ [])) result }
        // Memory runs out only for an edge that was not there.
        ensures memory { IsErrOf result GraphFault.NoMemory → is_upstream_of self.old.edges (index_of self.old.names up.now) (index_of self.old.names down.now) ≡ false }
        // A fault leaves the declaration as it was.
        ensures unchanged { OnErr result (self.new ≡ self.old) }
    {
        check_declared(&self.names, &[up, down])?;
        let from = place_of(&self.names, up);
        let to = place_of(&self.names, down);
        if !is_upstream(&self.edges, from, to) {
            self.edges.push(Edge { up: from, down: to })?;
        }
        Ok(())
    }

    /// Builds the graph, which numbers the handlers in their built order. The builder is spent, at a refusal too.
    pub fn build(self) -> Result<Graph, GraphFault>
        // It has the declared handlers in the built order, each with exactly its direct upstreams.
        ensures built { IfOk result (λ graph. IsGraphOf self graph) }
        // It has 1 to 16 handlers, each after its upstreams; to wait for all finals is to wait for each.
        ensures lawful { IfOk result (λ graph. IsGraph graph.upstreams) }

        // Of every declaration: it has at most 16 handlers, no two of one name, and edges between them alone.
        ensures declaration { IsDeclaration self }
        // A graph is built only where there is no cycle.
        ensures acyclic { IsOk result → HasCycle self.edges → ⊥ }
        // That there are no handlers is answered exactly where none is declared.
        ensures no_handlers { IsErrOf result GraphFault.NoHandlers ↔ (self.names ≡ []) }
        // A cycle is answered only where there is one; any other fault is that memory ran out.
        ensures cycle { IsErrOf result GraphFault.Cycle → HasCycle self.edges }
        ensures refused { IfErr result (λ fault. (fault ≡ GraphFault.NoHandlers) ⊎ ((fault ≡ GraphFault.Cycle) ⊎ (fault ≡ GraphFault.NoMemory))) }
    {
        if self.names.is_empty() {
            return Err(GraphFault::NoHandlers);
        }
        build(self.alloc, &self.names, &self.edges)
    }
}
