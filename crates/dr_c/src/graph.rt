//! The graph that C asks for, by masks.

ghost use Rattle.std.specs.Prelude.{◌≡◌, ◌⊎◌, ◌+◌, ◌<◌, ◌≤◌, [], decimal, length, IfErr, IfOk, OnOk};
ghost use Rattle.dr_c.specs.Asked.{AreAllowed, AreAsked, IsGraphOfMasks, numbered};
ghost use Rattle.dr_c.specs.Opening.{FollowsMasks};
ghost use Rattle.dr_c.specs.declared.open_fault.OpenFault.TheVariants.{NoMemory};

use crate::open_fault::OpenFault;
use dr_graph::{Graph, GraphBuilder, GraphFault};
use std::alloc::Global;

// Handlers go by number in C, and have names here alone.
fn name(handler: usize) -> &'static str
    requires { handler < 16 }
    ensures { result.now ≡ decimal handler }
{
    match handler {
        0 => "0",
        1 => "1",
        2 => "2",
        3 => "3",
        4 => "4",
        5 => "5",
        6 => "6",
        7 => "7",
        8 => "8",
        9 => "9",
        10 => "10",
        11 => "11",
        12 => "12",
        13 => "13",
        14 => "14",
        _ => "15",
    }
}

// Declares so many handlers, each named by its number.
fn declare_all(builder: &mut GraphBuilder, handlers: usize) -> Result<(), GraphFault>
    requires few { handlers ≤ 16 }
    requires none { builder.old.names ≡ [] }
    ensures names { OnOk result (builder.new.names ≡ numbered handlers) }
    ensures edges { builder.new.edges ≡ builder.old.edges }
    ensures memory { IfErr result (λ fault. fault ≡ GraphFault.NoMemory) }
{
    for handler in 0..handlers {
        let _group = builder.handle_with(&[name(handler)])?;
    }
    Ok(())
}

// Puts before a handler those before it whose bits are in its mask.
fn connect(builder: &mut GraphBuilder, masks: &[u64], handler: usize) -> Result<(), GraphFault>
    requires few { length masks.now ≤ 16 }
    requires here { handler < length masks.now }
    requires names { builder.old.names ≡ numbered (length masks.now) }
    requires edges { AreAsked masks.now handler 0 builder.old.edges }
    ensures names { builder.new.names ≡ builder.old.names }
    ensures edges { OnOk result (AreAsked masks.now (handler + 1) 0 builder.new.edges) }
    ensures memory { IfErr result (λ fault. fault ≡ GraphFault.NoMemory) }
{
    let mask = masks[handler];
    for up in 0..handler {
        if (mask >> up) % 2 == 1 {
            builder.edge(name(up), name(handler))?;
        }
    }
    Ok(())
}

fn connect_all(builder: &mut GraphBuilder, masks: &[u64]) -> Result<(), GraphFault>
    requires few { length masks.now ≤ 16 }
    requires names { builder.old.names ≡ numbered (length masks.now) }
    requires none { builder.old.edges ≡ [] }
    ensures names { builder.new.names ≡ builder.old.names }
    ensures edges { OnOk result (AreAsked masks.now (length masks.now) 0 builder.new.edges) }
    ensures memory { IfErr result (λ fault. fault ≡ GraphFault.NoMemory) }
{
    for handler in 0..masks.len() {
        connect(builder, masks, handler)?;
    }
    Ok(())
}

// The graph that masks ask for. It lacks memory, or there is no mask; nothing else refuses it.
fn built(alloc: Global, masks: &[u64]) -> Result<Graph, GraphFault>
    requires { length masks.now ≤ 16 }
    ensures asked { IfOk result (λ graph. IsGraphOfMasks masks.now graph) }
    ensures refused { IfErr result (λ fault. (fault ≡ GraphFault.NoMemory) ⊎ ((fault ≡ GraphFault.NoHandlers) × (length masks.now ≡ 0))) }
{
    let mut builder = GraphBuilder::new(alloc);
    declare_all(&mut builder, masks.len())?;
    connect_all(&mut builder, masks)?;
    builder.build()
}

// What a graph lacks that nothing refuses.
fn lacking(fault: GraphFault) -> OpenFault
    requires { fault ≡ GraphFault.NoMemory }
    ensures { result ≡ NoMemory }
{
    match fault {
        GraphFault::NoMemory => OpenFault::NoMemory,
        _ => unreachable!(),
    }
}

/// The graph of as many handlers as there are masks, in which handler `k` follows those whose bits are in mask `k`; or
/// `NoMemory`, where its builder answers that.
pub fn graph(alloc: Global, masks: &[u64]) -> Result<Graph, OpenFault>
    requires { AreAllowed masks.now }
    // There is a handler for each mask, and it follows just those whose bits are set.
    ensures all { IfOk result (λ graph. length graph.upstreams ≡ length masks.now) }
    ensures follows { IfOk result (λ graph. FollowsMasks graph.upstreams masks.now) }
    // Of masks in order nothing is refused: only memory may be lacking.
    ensures refused { IfErr result (λ fault. fault ≡ NoMemory) }
{
    match built(alloc, masks) {
        Ok(graph) => Ok(graph),
        Err(fault) => Err(lacking(fault)),
    }
}
