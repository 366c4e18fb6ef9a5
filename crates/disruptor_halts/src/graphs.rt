//! The graphs and the sizes that exchanges are opened for.

use crate::fault::Fault;
use crate::random::Random;
use dr_graph::{Graph, GraphBuilder, GraphFault};
use dr_seq::Size;
use std::alloc::Global;

/// Handlers, and which comes after which.
#[derive(Clone, Copy)]
struct Shape {
    names: &'static [&'static str],
    edges: &'static [(&'static str, &'static str)],
}

/// One handler, three side by side, one after another, or one after both others.
fn any_shape(random: &mut Random) -> Shape {
    let (names, edges): (&[&str], &[(&str, &str)]) = match random.below(4) {
        0 => (&["a"], &[]),
        1 => (&["a", "b", "c"], &[]),
        2 => (&["a", "b", "c"], &[("a", "b"), ("b", "c")]),
        _ => (&["a", "b", "c"], &[("a", "c"), ("b", "c")]),
    };
    Shape { names, edges }
}

fn declare(builder: &mut GraphBuilder, shape: Shape) -> Result<(), GraphFault> {
    builder.handle_with(shape.names)?;
    for (up, down) in shape.edges {
        builder.edge(up, down)?;
    }
    Ok(())
}

pub fn graph(alloc: Global, random: &mut Random) -> Result<Graph, GraphFault> {
    let shape = any_shape(random);
    let mut builder = GraphBuilder::new(alloc);
    declare(&mut builder, shape)?;
    builder.build()
}

/// Up to 1024 slots.
pub fn any_size(random: &mut Random) -> Result<Size, Fault> {
    match Size::new(1 << random.below(11)) {
        Ok(size) => Ok(size),
        Err(_) => Err(Fault::WrongReply),
    }
}
