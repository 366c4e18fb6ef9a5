//! Small graphs of handlers.

use dr_graph::{Graph, GraphBuilder};
use std::alloc::Global;
use std::process::Abort;

/// Who follows whom.
#[derive(Clone, Copy)]
pub enum Shape {
    Alone,
    SideBySide,
    /// One handler after another.
    Chain,
    /// Two handlers, and one after both.
    Diamond,
}

const ONE: &[&str] = &["a"];

const TWO: &[&str] = &["a", "b"];

/// The handlers without upstreams, and whether one follows them.
fn parts(shape: Shape) -> (&'static [&'static str], bool) {
    match shape {
        Shape::Alone => (ONE, false),
        Shape::SideBySide => (TWO, false),
        Shape::Chain => (ONE, true),
        Shape::Diamond => (TWO, true),
    }
}

fn declare(rt: &impl Abort, builder: &mut GraphBuilder, shape: Shape) {
    let (first, is_followed) = parts(shape);
    let group = builder.handle_with(first).expect(rt, "handlers");
    if is_followed {
        builder.then(&group, &["c"]).expect(rt, "a handler");
    }
}

pub fn graph(rt: &impl Abort, alloc: Global, shape: Shape) -> Graph {
    let mut builder = GraphBuilder::new(alloc);
    declare(rt, &mut builder, shape);
    builder.build().expect(rt, "a graph")
}
