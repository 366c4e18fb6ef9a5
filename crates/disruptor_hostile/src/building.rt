//! The calls of a builder of graphs.

use crate::again::again;
use crate::fault::Fault;
use crate::graphs::{TWO, declare, tell_graph};
use crate::telling::Lines;
use dr_graph::{GraphBuilder, GraphFault, Group};
use std::alloc::Global;

/// A call of a builder. There is a current group, which each call but `Edge` makes anew.
#[derive(Clone, Copy, Debug)]
enum Call<'a> {
    With(&'a [&'a str]),
    Then(&'a [&'a str]),
    After(&'a [&'a str]),
    /// The current group, and then the group of these names.
    And(&'a [&'a str]),
    Edge(&'a str, &'a str),
}

fn both(builder: &GraphBuilder, first: &Group, names: &[&str]) -> Result<Group, GraphFault> {
    let second = builder.after(names)?;
    builder.and(first, &second)
}

fn make(builder: &mut GraphBuilder, current: &mut Group, call: &Call) -> Result<(), GraphFault> {
    *current = match call {
        Call::With(names) => builder.handle_with(*names)?,
        Call::Then(names) => builder.then(&*current, *names)?,
        Call::After(names) => builder.after(*names)?,
        Call::And(names) => both(&*builder, &*current, *names)?,
        Call::Edge(up, down) => return builder.edge(*up, *down),
    };
    Ok(())
}

fn tell_call<R: Print>(
    out: &Lines<R>,
    builder: &mut GraphBuilder,
    current: &mut Group,
    call: &Call,
) {
    match make(builder, current, call) {
        Ok(()) => out.about("done", *call),
        Err(GraphFault::NoMemory) => out.end(Fault::Memory),
        Err(fault) => out.about(fault.name(), *call),
    }
}

const CALLS: [Call; 15] = [
    Call::Then(&["c"]),
    Call::With(&["d", "a"]),
    Call::With(&["d", "e f"]),
    Call::With(&[]),
    Call::After(&["a", "a"]),
    Call::Then(&["d"]),
    Call::After(&["z"]),
    Call::After(&["c"]),
    Call::And(&["d"]),
    Call::Then(&["e"]),
    Call::Edge("a", "z"),
    Call::Edge("b", "d"),
    Call::Edge("b", "d"),
    Call::With(&["f", "g", "h", "i", "j", "k", "l", "m", "n", "o", "p"]),
    Call::With(&["q"]),
];

fn tell_calls<R: Print>(out: &Lines<R>, builder: &mut GraphBuilder, current: &mut Group) {
    for call in &CALLS {
        again!(out, tell_call(out, builder, current, call));
    }
}

fn tell_all_calls<R: Print>(out: &Lines<R>, builder: &mut GraphBuilder) {
    match builder.handle_with(&TWO) {
        Ok(mut current) => tell_calls(out, builder, &mut current),
        Err(fault) => out.end(Fault::from(fault)),
    }
}

fn tell_build<R: Print>(out: &Lines<R>, builder: GraphBuilder) {
    match builder.build() {
        Ok(graph) => tell_graph(out, &graph),
        Err(fault) => out.end(Fault::from(fault)),
    }
}

/// Makes each call of a builder, and refused ones between them, which change nothing.
pub fn tell_builder<R: Print>(out: &Lines<R>, alloc: Global) {
    let mut builder = GraphBuilder::new(alloc);
    again!(out, tell_all_calls(out, &mut builder));
    tell_build(out, builder);
}

const FOUR: [&str; 4] = ["a", "b", "c", "d"];

const FIFTH: [&str; 1] = ["e"];

/// Declares some handlers with edges between them.
fn declare_edges(builder: &mut GraphBuilder) -> Result<(), GraphFault> {
    declare(builder, &FOUR, &FIFTH)?;
    builder.edge("d", "a")?;
    builder.edge("c", "b")
}

/// Builds, with a builder of its own each time.
pub fn tell_built<R: Print>(out: &Lines<R>, alloc: Global) {
    let mut builder = GraphBuilder::new(alloc);
    match declare_edges(&mut builder) {
        Ok(()) => tell_build(out, builder),
        Err(fault) => out.end(Fault::from(fault)),
    }
}
