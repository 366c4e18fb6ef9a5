//! Graphs that calls of a builder make.

mod rows;

use crate::checks::{check, check_text};
use crate::graphs::rows::{BUILT, Call, Row};
use dr_graph::{Graph, GraphBuilder, GraphFault, Group};
use std::alloc::Global;
use std::process::Abort;

fn both(builder: &GraphBuilder, first: &Group, names: &[&str]) -> Result<Group, GraphFault> {
    let second = builder.after(names)?;
    builder.and(first, &second)
}

/// Makes a call, and gives its refusal.
fn refusal(builder: &mut GraphBuilder, current: &mut Group, call: &Call) -> Option<GraphFault> {
    let made = match call {
        Call::With(names) => builder.handle_with(*names),
        Call::Then(names) => builder.then(&*current, *names),
        Call::After(names) => builder.after(*names),
        Call::And(names) => both(&*builder, &*current, *names),
        Call::Edge(up, down) => return builder.edge(*up, *down).err(),
    };
    match made {
        Ok(group) => {
            *current = group;
            None
        }
        Err(fault) => Some(fault),
    }
}

/// Makes calls, each with the refusal that is expected.
fn make_all(
    rt: &impl Abort,
    builder: &mut GraphBuilder,
    current: &mut Group,
    calls: &[(Call, Option<GraphFault>)],
) {
    for (k, (call, fault)) in calls.iter().enumerate() {
        check(rt, (k, refusal(builder, current, call)), (k, *fault));
    }
}

/// Declares the first handlers, makes calls, and builds.
fn built(
    rt: &impl Abort,
    alloc: Global,
    first: &[&str],
    calls: &[(Call, Option<GraphFault>)],
) -> Result<Graph, GraphFault> {
    let mut builder = GraphBuilder::new(alloc);
    let mut current = builder.handle_with(first)?;
    make_all(rt, &mut builder, &mut current, calls);
    builder.build()
}

/// Whether a graph has these handlers, in this order, with these upstreams and finals.
fn is_graph(graph: &Graph, names: &[&str], upstreams: &[&[usize]], finals: &[usize]) -> bool {
    if graph.len() != names.len() || upstreams.len() != names.len() {
        return false;
    }
    for h in 0..graph.len() {
        let is_named = graph.name(h) == names[h] && graph.position(names[h]) == Some(h);
        let is_placed = graph.upstreams(h) == upstreams[h]
            && graph.is_final(h) == finals.contains(&h);
        if !is_named || !is_placed {
            return false;
        }
    }
    graph.finals() == finals && graph.position("nobody").is_none()
}

fn check_row(rt: &impl Abort, alloc: Global, row: &Row) {
    let graph = built(rt, alloc, row.first, row.calls).expect(rt, row.name);
    let is_right = is_graph(&graph, row.names, row.upstreams, row.finals);
    check(rt, (row.name, is_right), (row.name, true));
}

#[test]
fn worked_rows(rt: HostRuntime) {
    for row in &BUILT {
        check_row(&rt, rt.alloc(), row);
    }
}

/// Edges from the first handler to itself, and back to it.
const CYCLES: [&[(Call, Option<GraphFault>)]; 2] = [
    &[(Call::Edge("a", "a"), None)],
    &[
        (Call::Then(&["b"]), None),
        (Call::Then(&["c"]), None),
        (Call::Edge("c", "a"), None),
    ],
];

#[test]
fn refuses_cycles(rt: HostRuntime) {
    for calls in &CYCLES {
        let answer = built(&rt, rt.alloc(), &["a"], *calls).err();
        assert!(rt; answer == Some(GraphFault::Cycle));
    }
}

#[test]
fn refuses_no_handlers(rt: HostRuntime) {
    let answer = GraphBuilder::new(rt.alloc()).build().err();
    assert!(rt; answer == Some(GraphFault::NoHandlers));
}

/// The refusal to declare one name with none declared.
fn refusal_of(alloc: Global, name: &str) -> Option<GraphFault> {
    GraphBuilder::new(alloc).handle_with(&[name]).err()
}

const BAD_NAMES: [&str; 7] = [
    "",
    "abcdefghijklmnopqrstuvwxyzabcdefg",
    "a b",
    "a.b",
    "b!",
    "é",
    "a\n",
];

const GOOD_NAMES: [&str; 5] = ["abcdefghijklmnopqrstuvwxyzabcdef", "A-z_09", "-", "_", "7"];

#[test]
fn names_have_1_to_32_letters_digits_and_dashes(rt: HostRuntime) {
    for name in &BAD_NAMES {
        let bad = Some(GraphFault::BadName);
        check(&rt, (*name, refusal_of(rt.alloc(), *name)), (*name, bad));
    }
    for name in &GOOD_NAMES {
        check(&rt, (*name, refusal_of(rt.alloc(), *name)), (*name, None));
    }
}

/// A group of a builder of its own.
fn group_of(alloc: Global, names: &[&str]) -> Result<Group, GraphFault> {
    GraphBuilder::new(alloc).handle_with(names)
}

/// Calls of a builder that refuses the first of them.
const FIRST_REFUSED: [(Call, Option<GraphFault>); 7] = [
    (Call::With(&["a", "a"]), Some(GraphFault::Duplicate)),
    (Call::With(&["a"]), None),
    (Call::With(&[]), Some(GraphFault::EmptyGroup)),
    (Call::With(&["a b"]), Some(GraphFault::BadName)),
    (
        Call::With(&["abcdefghijklmnopqrstuvwxyzabcdefg"]),
        Some(GraphFault::BadName),
    ),
    (Call::Edge("a", "z"), Some(GraphFault::Stranger)),
    (Call::Edge("a", "a"), None),
];

#[test]
fn takes_a_name_that_it_refused_at_first(rt: HostRuntime) {
    let mut builder = GraphBuilder::new(rt.alloc());
    let mut current = group_of(rt.alloc(), &["y"]).expect(&rt, "a group");
    make_all(&rt, &mut builder, &mut current, &FIRST_REFUSED);
    check(&rt, builder.build().err(), Some(GraphFault::Cycle));
}

fn follow(builder: &mut GraphBuilder, group: &Group) -> Result<(), GraphFault> {
    builder.then(group, &["h0"])?;
    Ok(())
}

fn follow_both(
    builder: &mut GraphBuilder,
    first: &Group,
    second: &Group,
) -> Result<(), GraphFault> {
    let both = builder.and(first, second)?;
    follow(builder, &both)
}

/// Declares handlers a and b, and a third that follows a group, and a and b with it if that `joins`.
fn declare(builder: &mut GraphBuilder, group: &Group, joins: bool) -> Result<(), GraphFault> {
    let here = builder.handle_with(&["a", "b"])?;
    if joins {
        follow_both(builder, group, &here)
    } else {
        follow(builder, group)
    }
}

/// Such handlers, where the group is one of another builder.
fn followed(alloc: Global, names: &[&str], joins: bool) -> Result<Graph, GraphFault> {
    let group = group_of(alloc, names)?;
    let mut builder = GraphBuilder::new(alloc);
    declare(&mut builder, &group, joins)?;
    builder.build()
}

#[test]
fn refuses_a_group_of_another_builder_with_a_stranger(rt: HostRuntime) {
    let stranger = Some(GraphFault::Stranger);
    check(
        &rt,
        followed(rt.alloc(), &["a", "z"], false).err(),
        stranger,
    );
    check(&rt, followed(rt.alloc(), &["a", "z"], true).err(), stranger);
}

fn check_followed(
    rt: &impl Abort,
    alloc: Global,
    joins: bool,
    upstreams: &[&[usize]],
    finals: &[usize],
) {
    let graph = followed(alloc, &["b"], joins).expect(rt, "a graph");
    assert!(rt; is_graph(&graph, &["a", "b", "h0"], upstreams, finals));
}

/// Whether a group here joins one of another builder, and the upstreams and the finals then.
const FOLLOWED: [(bool, [&[usize]; 3], &[usize]); 2] = [
    (false, [&[], &[], &[1]], &[0, 2]),
    (true, [&[], &[], &[0, 1]], &[2]),
];

#[test]
fn follows_a_group_of_another_builder(rt: HostRuntime) {
    for (joins, upstreams, finals) in &FOLLOWED {
        check_followed(&rt, rt.alloc(), *joins, upstreams, *finals);
    }
}

/// Whether these handlers are final where some are gone.
fn are_finals_without(graph: &Graph, gone: &[bool], finals: &[bool]) -> bool {
    if gone.len() != graph.len() || finals.len() != graph.len() {
        return false;
    }
    for h in 0..graph.len() {
        if graph.is_final_without(h, gone) != finals[h] {
            return false;
        }
    }
    true
}

const DIAMOND: [(Call, Option<GraphFault>); 1] = [(Call::Then(&["c"]), None)];

/// Which handlers of a diamond are gone, and which are final then.
const FINALS: [([bool; 3], [bool; 3]); 3] = [
    ([false, false, false], [false, false, true]),
    ([false, false, true], [true, true, false]),
    ([true, false, true], [false, true, false]),
];

#[test]
fn finals_of_the_handlers_that_are_left(rt: HostRuntime) {
    let diamond = built(&rt, rt.alloc(), &["a", "b"], &DIAMOND).expect(&rt, "a diamond");
    for (gone, finals) in &FINALS {
        assert!(rt; are_finals_without(&diamond, gone, finals));
    }
}

const FAULTS: [(GraphFault, &str); 8] = [
    (GraphFault::BadName, "bad-name"),
    (GraphFault::Duplicate, "duplicate"),
    (GraphFault::Stranger, "stranger"),
    (GraphFault::Cycle, "cycle"),
    (GraphFault::TooMany, "too-many"),
    (GraphFault::NoHandlers, "no-handlers"),
    (GraphFault::EmptyGroup, "empty-group"),
    (GraphFault::NoMemory, "no-memory"),
];

#[test]
fn faults_print_their_names(rt: HostRuntime) {
    for (fault, name) in &FAULTS {
        check_text(&rt, rt.alloc(), *fault, *name);
    }
}
