//! The built graph: handlers by number, each after its upstreams.

ghost use Rattle.std.specs.Prelude.{◌≡◌, ◌==◌, ◌⊎◌, ◌&&◌, not, ℕ, ◌<◌, length, map, IfOk, IfErr, IsOk, slice_get, slice_index, Some, position};
ghost use Rattle.std.specs.List.{list_any};
ghost use Rattle.std.specs.Str.{bytes_eq};
ghost use Rattle.std.specs.String.{string_bytes};
ghost use Rattle.dr_graph.specs.Meaning.Name.{AreDistinct, texts};
ghost use Rattle.dr_graph.specs.Meaning.Order.{is_in, HasCycle};
ghost use Rattle.dr_graph.specs.Meaning.Declaration.{IsDeclaration};
ghost use Rattle.dr_graph.specs.Meaning.Graph.{IsGraph, IsGraphOf, upstreams_of, names_in, flagged, is_followed, is_final_without as is_final_without_of, is_final as is_final_of, finals as finals_of};

use crate::edge::Edge;
use crate::fault::GraphFault;
use crate::order::{all_upstreams, place_all};
use indexmap::IndexSet;
use std::alloc::{AllocError, Global};
use std::marker::Model;

/// Handlers by number, from 0, in the built order: each has a lesser number than all that follow it. So a graph has no
/// cycle. A handler that another one follows does not gate the producers; the final handlers do.
#[derive(Drop)]
pub struct Graph {
    names: Vec<String>,
    upstreams: Vec<Vec<usize>>,
    finals: Vec<usize>,
}

impl Model for Graph {
    ghost use Rattle.dr_graph.specs.Meaning.Graph.{GraphView};

    ghost Value = { GraphView };

    ghost use Rattle.dr_graph.specs.Inside.KeptGraph.{shape_of, IsKeptGraph};

    ghost view = { shape_of };

    ghost invariant = { IsKeptGraph };
}

impl Graph {
    /// How many handlers there are. The contract also says what holds of every graph.
    pub fn len(&self) -> usize
        // Each handler has a list of upstreams, and a name.
        ensures handlers { result ≡ length self.now.upstreams }
        ensures names { result ≡ length self.now.names }
        // No two handlers have the same name.
        ensures distinct { AreDistinct self.now.names }
        // There are 1 to 16 handlers, each after its upstreams; to wait for all finals is to wait for each.
        ensures lawful { IsGraph self.now.upstreams }
    {
        self.upstreams.len()
    }

    /// The name of a handler.
    pub fn name(&self, h: usize) -> &str
        requires { h < length self.now.upstreams }
        ensures { slice_get self.now.names h ≡ Some result.now }
    {
        self.names[h].as_str()
    }

    /// The number of the handler with a name.
    pub fn position(&self, name: &str) -> Option<usize>
        ensures { result ≡ position (bytes_eq name.now) self.now.names }
    {
        place_in(self.names.as_slice(), name)
    }

    /// The direct upstreams of a handler, rising.
    pub fn upstreams(&self, h: usize) -> &[usize]
        requires { h < length self.now.upstreams }
        ensures { result.now ≡ upstreams_of self.now.upstreams h }
    {
        self.upstreams[h].as_slice()
    }

    /// Whether a handler is upstream of none.
    pub fn is_final(&self, h: usize) -> bool
        requires { h < length self.now.upstreams }
        ensures { result ≡ is_final_of self.now.upstreams h }
    {
        is_final_in(self.upstreams.as_slice(), h)
    }

    /// Whether a handler is not gone, and upstream of none that is not gone.
    pub fn is_final_without(&self, h: usize, gone: &[bool]) -> bool
        requires handler { h < length self.now.upstreams }
        requires flags { length gone.now ≡ length self.now.upstreams }
        ensures { result ≡ is_final_without_of self.now.upstreams (flagged gone.now) h }
    {
        is_final_in_without(self.upstreams.as_slice(), h, gone)
    }

    /// The final handlers, rising.
    pub fn finals(&self) -> &[usize]
        ensures { result.now ≡ finals_of self.now.upstreams }
    {
        self.finals.as_slice()
    }
}

fn place_in(names: &[String], name: &str) -> Option<usize>
    ensures { result ≡ position (λ other. bytes_eq name.now (string_bytes other)) names.now }
{
    names.iter().position(|other| name == other.as_str())
}

fn is_upstream_in(ups: &[usize], h: usize) -> bool
    ensures { result ≡ list_any (λ u. u == h) ups.now }
{
    ups.iter().any(|u| *u == h)
}

fn is_followed_in(upstreams: &[Vec<usize>], h: usize) -> bool
    ensures { result ≡ list_any (λ ups. list_any (λ u. u == h) ups.items) upstreams.now }
{
    upstreams.iter().any(|ups| is_upstream_in(ups, h))
}

fn is_upstream_left(ups: &[usize], gone: bool, h: usize) -> bool
    ensures { result ≡ (not gone && is_in ups.now h) }
{
    !gone && is_upstream_in(ups, h)
}

fn is_followed_in_without(upstreams: &[Vec<usize>], h: usize, gone: &[bool]) -> bool
    requires { length gone.now ≡ length upstreams.now }
    ensures { result ≡ is_followed (map (λ ups. ups.items) upstreams.now) (flagged gone.now) h }
{
    for k in 0..upstreams.len() {
        if is_upstream_left(&upstreams[k], gone[k], h) {
            return true;
        }
    }
    false
}

fn is_final_in_without(upstreams: &[Vec<usize>], h: usize, gone: &[bool]) -> bool
    requires handler { h < length upstreams.now }
    requires flags { length gone.now ≡ length upstreams.now }
    ensures { result ≡ is_final_without_of (map (λ ups. ups.items) upstreams.now) (flagged gone.now) h }
{
    !gone[h] && !is_followed_in_without(upstreams, h, gone)
}

fn is_final_in(upstreams: &[Vec<usize>], h: usize) -> bool
    ensures { result ≡ is_final_of (map (λ ups. ups.items) upstreams.now) h }
{
    !is_followed_in(upstreams, h)
}

fn finals_in(alloc: Global, upstreams: &[Vec<usize>]) -> Result<Vec<usize>, AllocError>
    ensures { IfOk result (λ finals. finals.items ≡ finals_of (map (λ ups. ups.items) upstreams.now)) }
{
    let mut finals = Vec::new(alloc);
    for h in 0..upstreams.len() {
        if is_final_in(upstreams, h) {
            finals.push(h)?;
        }
    }
    Ok(finals)
}

/// The names of an order of declared handlers.
fn named_in(alloc: Global, declared: &[String], order: &[usize]) -> Result<Vec<String>, AllocError>
    requires { (k : ℕ) → k < length order.now → slice_index order.now k < length declared.now }
    ensures { IfOk result (λ names. texts names.items ≡ names_in (texts declared.now) order.now) }
{
    let mut names = Vec::new(alloc);
    for h in order {
        names.push(String::from_str(alloc, declared[*h].as_str())?)?;
    }
    Ok(names)
}

/// Builds the graph of a declaration, or finds a cycle.
pub(crate) fn build(
    alloc: Global,
    declared: &IndexSet<String>,
    edges: &[Edge],
) -> Result<Graph, GraphFault>
    requires some { 0 < length declared.now.keys }
    requires declaration { IsDeclaration (record { names = texts declared.now.keys; edges = edges.now }) }
    ensures built { IfOk result (λ graph. IsGraphOf (record { names = texts declared.now.keys; edges = edges.now }) graph) }
    ensures lawful { IfOk result (λ graph. IsGraph graph.upstreams) }
    ensures acyclic { IsOk result → HasCycle edges.now → ⊥ }
    ensures cycle { result ≡ Err GraphFault.Cycle → HasCycle edges.now }
    ensures refused { IfErr result (λ fault. (fault ≡ GraphFault.Cycle) ⊎ (fault ≡ GraphFault.NoMemory)) }
{
    let order = place_all(alloc, declared.len(), edges)?;
    let upstreams = all_upstreams(alloc, edges, &order)?;
    let names = named_in(alloc, declared.as_slice(), &order)?;
    let finals = finals_in(alloc, &upstreams)?;
    Ok(Graph {
        names,
        upstreams,
        finals,
    })
}
