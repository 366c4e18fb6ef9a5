//! Small graphs of handlers.

use dr_graph::{Graph, GraphBuilder, GraphFault, Group};
use std::alloc::Global;
use std::process::Abort;

/// Who follows whom.
#[derive(Clone, Copy)]
pub enum Shape {
    Alone,
    SideBySide,
    /// One handler after another.
    Chain,
    /// Two handlers, and one after both.
    Diamond,
}

pub const SHAPES: [Shape; 4] = [
    Shape::Alone,
    Shape::SideBySide,
    Shape::Chain,
    Shape::Diamond,
];

impl Shape {
    /// How many handlers there are.
    pub fn handlers(self) -> usize {
        match self {
            Shape::Alone => 1,
            Shape::SideBySide | Shape::Chain => 2,
            Shape::Diamond => 3,
        }
    }
}

fn declare_first(builder: &mut GraphBuilder, shape: Shape) -> Result<Group, GraphFault> {
    match shape {
        Shape::Alone | Shape::Chain => builder.handle_with(&["a"]),
        Shape::SideBySide | Shape::Diamond => builder.handle_with(&["a", "b"]),
    }
}

fn declare_last(builder: &mut GraphBuilder, first: &Group) -> Result<(), GraphFault> {
    builder.then(first, &["c"])?;
    Ok(())
}

fn declare(builder: &mut GraphBuilder, shape: Shape) -> Result<(), GraphFault> {
    let first = declare_first(builder, shape)?;
    match shape {
        Shape::Alone | Shape::SideBySide => Ok(()),
        Shape::Chain | Shape::Diamond => declare_last(builder, &first),
    }
}

fn built(alloc: Global, shape: Shape) -> Result<Graph, GraphFault> {
    let mut builder = GraphBuilder::new(alloc);
    declare(&mut builder, shape)?;
    builder.build()
}

pub fn graph(rt: &impl Abort, alloc: Global, shape: Shape) -> Graph {
    built(alloc, shape).expect(rt, "a graph")
}
