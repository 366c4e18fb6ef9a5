//! What a new core is made of.

ghost use Rattle.std.specs.Prelude.{◌≡◌, IfOk, false, length, replicate};
ghost use Rattle.dr_graph.specs.Meaning.Graph.{flagged};
ghost use Rattle.dr_core.specs.Calls.CoreView.{AreGating};
ghost use Rattle.dr_core.specs.Inside.Availability.{HasOwners};

use crate::engine::retiring::flag_gating;
use dr_graph::Graph;
use dr_meaning::Mode;
use dr_seq::{Rounds, Size};
use std::alloc::{AllocError, Global};

/// Slots for the numbers of several producers; one producer needs none.
pub(crate) fn owners_for(alloc: Global, mode: Mode, size: Size) -> Result<Vec<u64>, AllocError>
    ensures { IfOk result (λ owners. HasOwners mode owners.items size) }
{
    match mode {
        Mode::Single => Ok(Vec::new(alloc)),
        Mode::Multi(_) => Ok(vec![in alloc; 0u64; size.get() as usize]?),
    }
}

/// Which sequences are published and written in a new core: none.
pub(crate) fn none_marked(alloc: Global, size: Size) -> Result<(Rounds, Rounds), AllocError>
    ensures { IfOk result (λ marks. (marks.0 ≡ replicate size 0) × (marks.1 ≡ replicate size 0)) }
{
    let published = Rounds::new(alloc, size)?;
    let written = Rounds::new(alloc, size)?;
    Ok((published, written))
}

/// What each handler of a new core took and completed, and whether it is retired.
pub(crate) fn none_counted(
    alloc: Global,
    handlers: usize,
) -> Result<(Vec<u64>, Vec<u64>, Vec<bool>), AllocError>
    ensures { IfOk result (λ counts. (counts.0.items ≡ replicate handlers 0) × (counts.1.items ≡ replicate handlers 0) × (counts.2.items ≡ replicate handlers false)) }
{
    let taken = vec![in alloc; 0u64; handlers]?;
    let completed = vec![in alloc; 0u64; handlers]?;
    let retired = vec![in alloc; false; handlers]?;
    Ok((taken, completed, retired))
}

/// Which handlers gate claims, by which of them are retired.
pub(crate) fn gating_at_first(
    alloc: Global,
    graph: &Graph,
    retired: &[bool],
) -> Result<Vec<bool>, AllocError>
    requires { length retired.now ≡ length graph.now.upstreams }
    ensures { IfOk result (λ gating. AreGating gating.items graph.now.upstreams (flagged retired.now)) }
{
    let mut gating = vec![in alloc; false; graph.len()]?;
    flag_gating(graph, retired, &mut gating);
    Ok(gating)
}
