//! Two handlers, of which the second follows the first.

use crate::fault::Fault;
use dr_graph::{Graph, GraphBuilder, GraphFault};
use dr_meaning::InPlaceHandler;
use dr_workers::Bell;
use std::alloc::Global;
use std::sync::Arc;
use std::sync::atomic::{AtomicU64, Ordering};

/// The number that a handler was shown last, and a bell that it rings then.
#[derive(Drop)]
pub struct Taken {
    number: AtomicU64,
    bell: Bell,
}

impl Taken {
    pub fn new() -> Taken {
        Taken {
            number: AtomicU64::new(0),
            bell: Bell::new(),
        }
    }

    pub fn bell(&self) -> &Bell {
        &self.bell
    }

    /// Whether this is the number that it was shown last.
    pub fn is(&self, number: u64) -> bool {
        self.number.load(Ordering::SeqCst) == number
    }
}

/// A handler that shows which number it was shown last.
#[derive(Drop)]
pub struct Taker {
    taken: Arc<Taken, Global>,
}

impl InPlaceHandler<u64> for Taker {
    fn on_event_in_place(&mut self, event: &u64, _s: u64, _end: bool) {
        self.taken.number.store(*event, Ordering::SeqCst);
        self.taken.bell.ring();
    }
}

/// A handler that does nothing.
#[derive(Drop)]
pub struct Idler;

impl InPlaceHandler<u64> for Idler {
    fn on_event_in_place(&mut self, _event: &u64, _s: u64, _end: bool) {}
}

/// Declares handlers, and which comes after which.
fn declare(
    builder: &mut GraphBuilder,
    names: &[&str],
    edges: &[(&str, &str)],
) -> Result<(), GraphFault> {
    builder.handle_with(names)?;
    for (up, down) in edges {
        builder.edge(up, down)?;
    }
    Ok(())
}

/// A graph of handlers.
pub fn graph(alloc: Global, names: &[&str], edges: &[(&str, &str)]) -> Result<Graph, Fault> {
    let mut builder = GraphBuilder::new(alloc);
    if declare(&mut builder, names, edges).is_err() {
        return Err(Fault::Memory);
    }
    match builder.build() {
        Ok(graph) => Ok(graph),
        Err(_) => Err(Fault::Memory),
    }
}

/// Both of them, where they do nothing.
pub fn idlers(alloc: Global) -> Result<Vec<Idler>, Fault> {
    Ok(vec![in alloc; Idler, Idler]?)
}

/// Both of them, of which the second shows there what it took.
pub fn takers(alloc: Global, taken: &Arc<Taken, Global>) -> Result<Vec<Taker>, Fault> {
    let unseen = Arc::new(alloc, Taken::new())?;
    let taken = Arc::try_clone(taken)?;
    Ok(vec![in alloc; Taker { taken: unseen }, Taker { taken }]?)
}
