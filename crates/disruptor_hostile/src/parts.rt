//! Calls that never take memory, of what an exchange is made of: its slots, its rounds, the
//! remembered count and the graph.

ghost use Rattle.std.specs.Prelude.{◌≡◌, length};

use crate::core_calls::word;
use crate::fault::Fault;
use crate::graphs::tell_graph;
use crate::taking_none::tell_memory;
use crate::telling::Lines;
use dr_graph::Graph;
use dr_seq::{Event, GateCache, Rounds, Size, Slots};
use std::alloc::Global;

fn tell_slots<R: Print>(out: &Lines<R>, slots: &mut Slots<Event>)
    requires { length slots.old ≡ 4 }
{
    slots.put(2, word(2));
    slots.put(3, word(3));
    slots.put(4, word(4));
    out.value(slots.get(6));
    let (head, rest) = slots.slices(2, 3);
    out.between(head, " ", rest);
    let mut events = [Event::NONE; 3];
    slots.copy_to(3, &mut events);
    out.value(events);
}

fn tell_rounds<R: Print>(out: &Lines<R>, rounds: &mut Rounds)
    requires { length rounds.old ≡ 4 }
{
    rounds.mark(2);
    rounds.mark(3);
    out.between(rounds.is_marked(2), " ", rounds.is_marked(6));
    out.about("marked from 2 up to", rounds.front(2, 6));
    let mut gate = GateCache::new();
    gate.raise(3);
    out.about("seen", gate.seen());
}

fn tell_finals<R: Print>(out: &Lines<R>, graph: &Graph) {
    for h in 0..graph.len() {
        out.value(graph.is_final(h));
    }
    let gone = [false, true, false];
    if graph.len() == gone.len() {
        out.value(graph.is_final_without(2, &gone));
    }
    out.value(graph.position("b"));
}

const PLACES: [&str; 4] = ["slot ", " in round ", " of ", ""];

fn tell_all<R: Print>(
    out: &Lines<R>,
    size: Size,
    slots: &mut Slots<Event>,
    rounds: &mut Rounds,
    graph: &Graph,
)
    requires slots { length slots.old ≡ 4 }
    requires rounds { length rounds.old ≡ 4 }
{
    out.words("open");
    out.three(&PLACES, size.slot(6), size.round(6), size.get());
    tell_slots(out, slots);
    tell_rounds(out, rounds);
    tell_graph(out, graph);
    tell_finals(out, graph);
}

/// Makes the parts, and makes every call of them.
fn parts_told<R: Print>(out: &Lines<R>, alloc: Global, graph: &Graph) -> Result<(), Fault> {
    let size = Size::new(4)?;
    let mut slots = Slots::new(alloc, size, Event::NONE)?;
    let mut rounds = Rounds::new(alloc, size)?;
    tell_all(out, size, &mut slots, &mut rounds, graph);
    tell_memory(out, alloc);
    Ok(())
}

/// Every call of slots, rounds, a remembered count and a graph.
pub fn tell_parts<R: Print>(out: &Lines<R>, alloc: Global, graph: &Graph) {
    if let Err(fault) = parts_told(out, alloc, graph) {
        out.end(fault);
    }
}
