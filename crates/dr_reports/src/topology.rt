//! The exchange of the replay: journal and replica, and business after both.

ghost use Rattle.std.specs.Prelude.{◌≡◌, IfOk};
ghost use Rattle.dr_meaning.specs.Meaning.Machine.{opening};
ghost use Rattle.dr_core.specs.Calls.Shows.{Shows};
ghost use Rattle.dr_reports.specs.Passing.{replay_graph, replay_names, replay_setup};

use dr_core::Core;
use dr_graph::laws::one_graph;
use dr_graph::{Graph, GraphBuilder};
use dr_meaning::{MAX_LIMIT, Mode};
use dr_seq::{Event, Size};
use std::alloc::{AllocError, Global};

/// The graph of the replay's handlers. An error is that memory ran out: the names are good and differ,
/// and there is no cycle.
pub fn graph(alloc: Global) -> Result<Graph, AllocError>
    // Journal and replica have no upstreams, and business follows both.
    ensures graph { IfOk result (λ graph. graph.upstreams ≡ replay_graph) }
    ensures names { IfOk result (λ graph. graph.names ≡ replay_names) }
{
    one_graph();
    let mut builder = GraphBuilder::new(alloc);
    let Ok(first) = builder.handle_with(["journal", "replica"].as_slice()) else {
        return Err(AllocError);
    };
    let Ok(_) = builder.then(&first, ["business"].as_slice()) else {
        return Err(AllocError);
    };
    match builder.build() {
        Ok(graph) => Ok(graph),
        Err(_) => Err(AllocError),
    }
}

/// Opens the exchange with one producer and as many sequences as there may be. An error is that
/// memory ran out.
pub fn open(alloc: Global, size: Size) -> Result<Core<Event>, AllocError>
    // It has these handlers and one producer, and shows the machine's opening state.
    ensures setup { IfOk result (λ core. core.setup ≡ replay_setup size) }
    ensures opening { IfOk result (λ core. Shows core (opening (replay_setup size))) }
{
    let graph = graph(alloc)?;
    Core::open_valid(alloc, graph, size, Mode::Single, MAX_LIMIT, Event::NONE)
}
