//! How a core stands: what a claim and a poll would be answered now.

ghost use Rattle.std.specs.Prelude.{◌≡◌, ◌<◌, [], if◌then◌else◌, length, min, slice_index_or};
ghost use Rattle.dr_graph.specs.Meaning.Graph.{flagged, is_final_without as is_final_of};
ghost use Rattle.dr_meaning.specs.Meaning.Machine.{handlers};
ghost use Rattle.dr_core.specs.Calls.CoreView.{gate_of as gate_in, retired_in};
ghost use Rattle.dr_drive.specs.Calls.Standing.{AreRetired, ready_in, room_in};

use dr_core::Core;
use dr_graph::Graph;
use dr_seq::Event;

/// No graph has more handlers.
const MOST_HANDLERS: usize = 16;

/// The name of a handler.
pub fn name_of(graph: &Graph, h: usize) -> &str
    requires { h < length graph.now.upstreams }
    ensures { result.now ≡ slice_index_or graph.now.names h [] }
{
    graph.name(h)
}

/// How many events a poll gives a handler that asks for all: none once it is retired.
pub fn ready(core: &Core<Event>, h: usize) -> u64
    requires { h < handlers core.now.setup }
    ensures { result ≡ ready_in core.now h }
{
    match core.ready(h) {
        Ok(count) => count,
        Err(_) => 0,
    }
}

// Flags, one a handler, of those that are retired.
fn retired_flags(core: &Core<Event>) -> [bool; MOST_HANDLERS]
    ensures { AreRetired (flagged result) core.now }
{
    let mut flags = [false; MOST_HANDLERS];
    for h in 0..core.graph().len() {
        flags[h] = core.is_retired(h);
    }
    flags
}

// Whether claims wait for a handler, where these flags tell which are retired.
fn is_final_now(core: &Core<Event>, gone: &[bool], h: usize) -> bool
    requires handler { h < handlers core.now.setup }
    requires flags { length gone.now ≡ handlers core.now.setup }
    requires gone { AreRetired (flagged gone.now) core.now }
    ensures { result ≡ is_final_of core.now.setup.upstreams (retired_in core.now) h }
{
    core.graph().is_final_without(h, gone)
}

fn lesser(found: bool, least: u64, count: u64) -> u64
    ensures { result ≡ (if found then min least count else count) }
{
    if found { least.min(count) } else { count }
}

// The least completed count of the handlers that claims wait for, where these flags tell which are retired.
fn least_completed(core: &Core<Event>, gone: &[bool]) -> u64
    requires flags { length gone.now ≡ handlers core.now.setup }
    requires gone { AreRetired (flagged gone.now) core.now }
    ensures { result ≡ gate_in core.now }
{
    let mut found = false;
    let mut least = 0;
    for h in 0..core.graph().len() {
        if is_final_now(core, gone, h) {
            least = lesser(found, least, core.completed(h));
            found = true;
        }
    }
    least
}

/// The least completed count of the handlers that claims wait for: those that are not retired, and that
/// none follows which is not retired.
pub fn gate(core: &Core<Event>) -> u64
    ensures { result ≡ gate_in core.now }
{
    let flags = retired_flags(core);
    least_completed(core, &flags[..core.graph().len()])
}

/// Whether claims wait for a handler, as for one that is not retired, and that none follows which is not.
pub fn is_gating(core: &Core<Event>, h: usize) -> bool
    requires { h < handlers core.now.setup }
    ensures { result ≡ is_final_of core.now.setup.upstreams (retired_in core.now) h }
{
    let flags = retired_flags(core);
    is_final_now(core, &flags[..core.graph().len()], h)
}

/// The most sequences that a claim is given now, where the exchange has this limit: none after a halt.
pub fn room(core: &Core<Event>, limit: u64) -> u64
    requires { limit ≡ core.now.setup.limit }
    ensures { result ≡ room_in core.now }
{
    if core.is_halted() {
        return 0;
    }
    let next = core.next();
    let open = next.saturating_sub(gate(core));
    let free = core.size().get().saturating_sub(open);
    limit.saturating_sub(next).min(free)
}
