//! Edges between declared handlers, which go by their place in the declaration.

ghost use Rattle.std.specs.Prelude.{◌≡◌, ◌≤◌, ◌-◌, ◌++◌, IfOk, OnOk};
ghost use Rattle.std.specs.List.{range_with_len};
ghost use Rattle.dr_graph.specs.Meaning.Order.{is_upstream as is_upstream_of};
ghost use Rattle.dr_graph.specs.Meaning.Declaration.{edges_to, edges_between};

use std::alloc::{AllocError, Global};

/// One handler is a direct upstream of another.
#[derive(Clone, Copy, Debug, PartialEq, Eq)]
pub struct Edge {
    pub up: usize,
    pub down: usize,
}

/// Whether a handler is a direct upstream of another.
pub fn is_upstream(edges: &[Edge], up: usize, down: usize) -> bool
    ensures { result ≡ is_upstream_of edges.now up down }
{
    edges.iter().any(|e| e.up == up && e.down == down)
}

/// Puts each of some handlers before one.
fn add_edges(edges: &mut Vec<Edge>, ups: &[usize], down: usize) -> Result<(), AllocError>
    ensures { OnOk result (edges.new.items ≡ edges.old.items ++ edges_to ups.now down) }
{
    for up in ups {
        edges.push(Edge { up: *up, down })?;
    }
    Ok(())
}

/// The edges with new ones, from each of some handlers to each of those from `first` up to `end`.
pub(crate) fn with_followers(
    alloc: Global,
    edges: &[Edge],
    ups: &[usize],
    first: usize,
    end: usize,
) -> Result<Vec<Edge>, AllocError>
    requires { first ≤ end }
    ensures { IfOk result (λ all. all.items ≡ edges.now ++ edges_between ups.now (range_with_len first (end - first))) }
{
    let mut all = Vec::from_slice(alloc, edges)?;
    for down in first..end {
        add_edges(&mut all, ups, down)?;
    }
    Ok(all)
}
