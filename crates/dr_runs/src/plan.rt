//! What each ring keeps of the graph that it is made for.

ghost use Rattle.std.specs.Prelude.{◌≡◌, map, IfOk};

use dr_graph::Graph;
use std::alloc::{AllocError, Global};

/// The direct upstreams of each handler of a graph, copied.
pub fn copy_upstreams(alloc: Global, graph: &Graph) -> Result<Vec<Vec<usize>>, AllocError>
    ensures { IfOk result (λ v. map (λ ups. ups.items) v.items ≡ graph.now.upstreams) }
{
    let handlers = graph.len();
    let mut upstreams = Vec::with_capacity(alloc, handlers)?;
    for handler in 0..handlers {
        let own = Vec::from_slice(alloc, graph.upstreams(handler))?;
        upstreams.push(own)?;
    }
    Ok(upstreams)
}
