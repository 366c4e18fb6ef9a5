//! The order in which declared handlers are built, and each handler's upstreams in it.

ghost use Rattle.std.specs.Prelude.{◌≡◌, ◌==◌, ◌||◌, not, ℕ, ◌<◌, false, length, map, MatchOption, IfOk, IfErr, IsOk, ◌⊎◌};
ghost use Rattle.std.specs.List.{list_all};
ghost use Rattle.dr_graph.specs.Meaning.Order.{is_in, is_ready as is_ready_of, IsNext, AreWithin, IsBuiltOrder, HasCycle};
ghost use Rattle.dr_graph.specs.Meaning.Graph.{AreLists, AreChosen, leads_to};

use crate::edge::{Edge, is_upstream};
use crate::fault::GraphFault;
use std::alloc::{AllocError, Global};

fn is_among(placed: &[usize], h: usize) -> bool
    ensures { result ≡ is_in placed.now h }
{
    placed.iter().any(|k| *k == h)
}

fn are_upstreams_among(edges: &[Edge], placed: &[usize], h: usize) -> bool
    ensures { result ≡ list_all (λ e. not (e.down == h) || is_in placed.now e.up) edges.now }
{
    edges.iter().all(|e| e.down != h || is_among(placed, e.up))
}

/// Whether a handler is not placed, and all its upstreams are.
fn is_ready(edges: &[Edge], placed: &[usize], h: usize) -> bool
    ensures { result ≡ is_ready_of edges.now placed.now h }
{
    !is_among(placed, h) && are_upstreams_among(edges, placed, h)
}

/// The first handler that is ready.
fn first_ready(count: usize, edges: &[Edge], placed: &[usize]) -> Option<usize>
    ensures { MatchOption result ((j : ℕ) → j < count → is_ready_of edges.now placed.now j ≡ false) (λ h. IsNext count edges.now placed.now h) }
{
    for h in 0..count {
        if is_ready(edges, placed, h) {
            return Some(h);
        }
    }
    None
}

/// The built order, or that there is a cycle.
pub fn place_all(alloc: Global, count: usize, edges: &[Edge]) -> Result<Vec<usize>, GraphFault>
    requires { AreWithin count edges.now }
    // It has all handlers, each once, always the first declared one whose upstreams are all placed.
    ensures built { IfOk result (λ order. IsBuiltOrder count edges.now order.items) }
    // There is an order only without a cycle, and a cycle is answered only where there is one.
    ensures acyclic { IsOk result → HasCycle edges.now → ⊥ }
    ensures cycle { result ≡ Err GraphFault.Cycle → HasCycle edges.now }
    // Any other fault is that memory ran out.
    ensures refused { IfErr result (λ fault. (fault ≡ GraphFault.Cycle) ⊎ (fault ≡ GraphFault.NoMemory)) }
{
    let mut placed = Vec::new(alloc);
    while placed.len() < count {
        match first_ready(count, edges, &placed) {
            Some(h) => placed.push(h)?,
            None => return Err(GraphFault::Cycle),
        }
    }
    Ok(placed)
}

/// The upstreams of a handler of an order, by their numbers in it.
fn upstreams_at(
    alloc: Global,
    edges: &[Edge],
    order: &[usize],
    h: usize,
) -> Result<Vec<usize>, AllocError>
    requires { h < length order.now }
    ensures { IfOk result (λ ups. AreChosen (leads_to edges.now order.now h) h ups.items) }
{
    let mut ups = Vec::new(alloc);
    for u in 0..h {
        if is_upstream(edges, order[u], order[h]) {
            ups.push(u)?;
        }
    }
    Ok(ups)
}

/// The upstreams of each handler of an order.
pub fn all_upstreams(
    alloc: Global,
    edges: &[Edge],
    order: &[usize],
) -> Result<Vec<Vec<usize>>, AllocError>
    // There is a list for each handler of the order: exactly its direct upstreams before it, rising.
    ensures len { IfOk result (λ lists. length lists.items ≡ length order.now) }
    ensures each { IfOk result (λ lists. AreLists edges.now order.now (map (λ ups. ups.items) lists.items)) }
{
    let mut lists = Vec::new(alloc);
    for h in 0..order.len() {
        lists.push(upstreams_at(alloc, edges, order, h)?)?;
    }
    Ok(lists)
}
