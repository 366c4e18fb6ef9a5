//! How the tests compare values, and the graphs that they run over.

ghost use Rattle.std.specs.Prelude.{◌≡◌};

use dr_graph::{Graph, GraphBuilder, GraphFault};
use dr_seq::Size;
use std::alloc::Global;
use std::fmt::Debug;
use std::process::Abort;

/// Two values are the same. A call of this costs a proof less than an assertion in its place.
pub fn check<T: Copy + PartialEq + Debug>(rt: &impl Abort, found: T, wanted: T) {
    assert_eq!(rt; found, wanted);
}

pub fn size(rt: &impl Abort, slots: u64) -> Size
    ensures { result ≡ slots }
{
    let size = Size::new(slots).expect(rt, "a size");
    assert_eq!(rt; size.get(), slots);
    size
}

fn built(alloc: Global, first: &[&str], last: &[&str]) -> Result<Graph, GraphFault> {
    let mut builder = GraphBuilder::new(alloc);
    let group = builder.handle_with(first)?;
    builder.then(&group, last)?;
    builder.build()
}

/// A handler, and one after it.
pub fn chain(rt: &impl Abort, alloc: Global) -> Graph {
    built(alloc, &["a"], &["b"]).expect(rt, "a graph")
}

/// Two handlers side by side, and one after both.
pub fn diamond(rt: &impl Abort, alloc: Global) -> Graph {
    built(alloc, &["a", "b"], &["c"]).expect(rt, "a graph")
}
