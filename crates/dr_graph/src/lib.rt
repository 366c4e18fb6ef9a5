//! Who follows whom: handlers are declared by name with the edges between them, and built into a graph.
//!
//! Begin at [`builder`]: a `GraphBuilder` declares handlers in groups, and its `build` numbers them so that each comes
//! after its upstreams, or finds a cycle. What a [`built::Graph`] keeps is in `specs/Meaning/Graph.antt`, with the law that
//! gating rests on: whoever waits for all final handlers waits for every handler.
#![tactic(auto)]

pub mod builder;
pub mod built;
pub mod edge;
pub mod fault;
pub mod group;
pub mod laws;
pub mod name;
mod order;

pub use builder::GraphBuilder;
pub use built::Graph;
pub use fault::GraphFault;
pub use group::Group;
pub use name::{MAX_HANDLERS, MAX_NAME_LEN};
