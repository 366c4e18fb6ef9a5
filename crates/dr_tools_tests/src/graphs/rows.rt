//! Worked rows of the builder.

use dr_graph::GraphFault;
use dr_graph::GraphFault::{BadName, Duplicate, EmptyGroup, Stranger, TooMany};

/// A call of a builder. There is a current group, as in a drive file: each call but `Edge` makes it anew.
#[derive(Clone, Copy)]
pub enum Call {
    With(&'static [&'static str]),
    Then(&'static [&'static str]),
    After(&'static [&'static str]),
    /// The current group, and then the group of these names.
    And(&'static [&'static str]),
    Edge(&'static str, &'static str),
}

use Call::{After, And, Edge, Then, With};

/// The first handlers, calls with their refusals, and the graph that is built then: its handlers in their order, the upstreams
/// of each, and the finals.
pub struct Row {
    pub name: &'static str,
    pub first: &'static [&'static str],
    pub calls: &'static [(Call, Option<GraphFault>)],
    pub names: &'static [&'static str],
    pub upstreams: &'static [&'static [usize]],
    pub finals: &'static [usize],
}

const LONG: &str = "abcdefghijklmnopqrstuvwxyzabcdefg";

const SIXTEEN: &[&str] = &[
    "h0", "h1", "h2", "h3", "h4", "h5", "h6", "h7", "h8", "h9", "h10", "h11", "h12", "h13", "h14",
    "h15",
];

pub const BUILT: [Row; 11] = [
    Row {
        name: "groups that follow groups",
        first: &["a", "b"],
        calls: &[
            (Then(&["c"]), None),
            (After(&["a", "a"]), None),
            (Then(&["d"]), None),
            (After(&["c"]), None),
            (And(&["d"]), None),
            (Then(&["e"]), None),
        ],
        names: &["a", "b", "c", "d", "e"],
        upstreams: &[&[], &[], &[0, 1], &[0], &[2, 3]],
        finals: &[4],
    },
    Row {
        name: "a builder that refuses serves on",
        first: &["a"],
        calls: &[
            (With(&["b", "b"]), Some(Duplicate)),
            (With(&["b", "a"]), Some(Duplicate)),
            (With(&["b c", "a"]), Some(BadName)),
            (With(&["a", "b c"]), Some(Duplicate)),
            (With(&[LONG]), Some(BadName)),
            (With(&[]), Some(EmptyGroup)),
            (Then(&[]), Some(EmptyGroup)),
            (Then(&["a"]), Some(Duplicate)),
            (After(&[]), Some(EmptyGroup)),
            (After(&["a", "z"]), Some(Stranger)),
            (And(&["z"]), Some(Stranger)),
            (Edge("a", "z"), Some(Stranger)),
            (Edge("z", "a"), Some(Stranger)),
            (Then(&["b"]), None),
        ],
        names: &["a", "b"],
        upstreams: &[&[], &[0]],
        finals: &[1],
    },
    Row {
        name: "reversed edge",
        first: &["a", "b"],
        calls: &[(Edge("b", "a"), None), (Edge("b", "a"), None)],
        names: &["b", "a"],
        upstreams: &[&[], &[0]],
        finals: &[1],
    },
    Row {
        name: "the first declared that is ready comes next",
        first: &["a", "b", "c", "d"],
        calls: &[(Edge("d", "a"), None), (Edge("c", "b"), None)],
        names: &["c", "b", "d", "a"],
        upstreams: &[&[], &[0], &[], &[2]],
        finals: &[1, 3],
    },
    Row {
        name: "a seventeenth is refused",
        first: &["h0", "h1", "h2", "h3", "h4", "h5", "h6", "h7", "h8", "h9"],
        calls: &[
            (
                With(&["i0", "i1", "i2", "i3", "i4", "i5", "i6"]),
                Some(TooMany),
            ),
            (
                Then(&["i0", "i1", "i2", "i3", "i4", "i5", "i6"]),
                Some(TooMany),
            ),
            (With(&["h10", "h11", "h12", "h13", "h14", "h15"]), None),
            (With(&["i0"]), Some(TooMany)),
            (With(&["i0", "h0"]), Some(Duplicate)),
        ],
        names: SIXTEEN,
        upstreams: &[
            &[],
            &[],
            &[],
            &[],
            &[],
            &[],
            &[],
            &[],
            &[],
            &[],
            &[],
            &[],
            &[],
            &[],
            &[],
            &[],
        ],
        finals: &[0, 1, 2, 3, 4, 5, 6, 7, 8, 9, 10, 11, 12, 13, 14, 15],
    },
    Row {
        name: "sixteen in a chain",
        first: &["h0"],
        calls: &[
            (Then(&["h1"]), None),
            (Then(&["h2"]), None),
            (Then(&["h3"]), None),
            (Then(&["h4"]), None),
            (Then(&["h5"]), None),
            (Then(&["h6"]), None),
            (Then(&["h7"]), None),
            (Then(&["h8"]), None),
            (Then(&["h9"]), None),
            (Then(&["h10"]), None),
            (Then(&["h11"]), None),
            (Then(&["h12"]), None),
            (Then(&["h13"]), None),
            (Then(&["h14"]), None),
            (Then(&["h15"]), None),
        ],
        names: SIXTEEN,
        upstreams: &[
            &[],
            &[0],
            &[1],
            &[2],
            &[3],
            &[4],
            &[5],
            &[6],
            &[7],
            &[8],
            &[9],
            &[10],
            &[11],
            &[12],
            &[13],
            &[14],
        ],
        finals: &[15],
    },
    Row {
        name: "fifteen before one",
        first: &[
            "h0", "h1", "h2", "h3", "h4", "h5", "h6", "h7", "h8", "h9", "h10", "h11", "h12", "h13",
            "h14",
        ],
        calls: &[(Then(&["h15"]), None)],
        names: SIXTEEN,
        upstreams: &[
            &[],
            &[],
            &[],
            &[],
            &[],
            &[],
            &[],
            &[],
            &[],
            &[],
            &[],
            &[],
            &[],
            &[],
            &[],
            &[0, 1, 2, 3, 4, 5, 6, 7, 8, 9, 10, 11, 12, 13, 14],
        ],
        finals: &[15],
    },
    // The topologies of the technical paper: unicast, and the sequencer, whose three producers are no part of the graph.
    Row {
        name: "unicast",
        first: &["a"],
        calls: &[],
        names: &["a"],
        upstreams: &[&[]],
        finals: &[0],
    },
    Row {
        name: "pipeline",
        first: &["a"],
        calls: &[(Then(&["b"]), None), (Then(&["c"]), None)],
        names: &["a", "b", "c"],
        upstreams: &[&[], &[0], &[1]],
        finals: &[2],
    },
    Row {
        name: "multicast",
        first: &["a", "b", "c"],
        calls: &[],
        names: &["a", "b", "c"],
        upstreams: &[&[], &[], &[]],
        finals: &[0, 1, 2],
    },
    Row {
        name: "diamond",
        first: &["a", "b"],
        calls: &[(Then(&["c"]), None)],
        names: &["a", "b", "c"],
        upstreams: &[&[], &[], &[0, 1]],
        finals: &[2],
    },
];
