//! The graphs that the cases open exchanges for.

use crate::telling::Lines;
use dr_graph::{Graph, GraphBuilder, GraphFault, Group};
use std::alloc::Global;

fn follow(builder: &mut GraphBuilder, all: &Group, then: &[&str]) -> Result<(), GraphFault> {
    builder.then(all, then)?;
    Ok(())
}

/// Declares handlers side by side, and those after all of them, if there are any.
pub fn declare(
    builder: &mut GraphBuilder,
    first: &[&str],
    then: &[&str],
) -> Result<(), GraphFault> {
    let all = builder.handle_with(first)?;
    if then.is_empty() {
        return Ok(());
    }
    follow(builder, &all, then)
}

/// Handlers side by side, and those after all of them.
pub fn graph(alloc: Global, first: &[&str], then: &[&str]) -> Result<Graph, GraphFault> {
    let mut builder = GraphBuilder::new(alloc);
    declare(&mut builder, first, then)?;
    builder.build()
}

/// Names of handlers.
pub const ONE: [&str; 1] = ["a"];

pub const TWO: [&str; 2] = ["a", "b"];

pub const THIRD: [&str; 1] = ["c"];

/// Two handlers, and one after both.
pub fn diamond(alloc: Global) -> Result<Graph, GraphFault> {
    graph(alloc, &TWO, &THIRD)
}

/// Tells each handler of a graph, with its upstreams.
pub fn tell_graph<R: Print>(out: &Lines<R>, graph: &Graph) {
    for h in 0..graph.len() {
        out.named(graph.name(h), "after", graph.upstreams(h));
    }
    out.about("finals", graph.finals());
}
