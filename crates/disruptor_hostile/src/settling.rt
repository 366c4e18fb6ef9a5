//! What brings the ends of a ring over atomic words together takes no memory.

use crate::fault::Fault;
use crate::ring_calls::opened;
use crate::taking_none::tell_memory;
use crate::telling::Lines;
use dr_graph::Graph;
use dr_ring::{settle, settle_all};
use std::alloc::Global;

/// Brings the ends of one ring together without their halter, and those of another with it.
pub fn tell_settled<R: Print>(out: &Lines<R>, alloc: Global, graph: &Graph) {
    match (opened(alloc, graph), opened(alloc, graph)) {
        (Ok((sender, receivers, _halter)), Ok((other, others, halter))) => {
            out.words("open");
            out.value(settle(sender, receivers).handlers());
            out.value(settle_all(other, others, halter).handlers());
            tell_memory(out, alloc);
        }
        (Err(fault), _) | (_, Err(fault)) => out.end(fault),
    }
}
