//! What can be measured: an exchange, a graph of handlers, and how the producer sends.

use crate::width::Width;
use dr_graph::{Graph, GraphBuilder, GraphFault};
use std::alloc::Global;
use std::fmt;

/// What the events go through.
#[derive(Clone, Copy)]
pub enum Exchange {
    /// The core of events of such a width, with all on one thread.
    Core(Width),
    /// The ring over atomic words, with a thread for each end.
    Ring,
    /// The ring over plain memory, of events of such a width, with a thread for each end.
    Plain(Width),
    /// The same with events of two words, by a run in one call.
    InOneCall,
    /// The ring over plain memory with so many senders, and a thread for each end.
    PlainSenders(u64),
    /// The core behind a lock, with so many producers, and a thread for each of them and for each handler.
    Lock(u64),
}

/// The most handlers that a chain has, or that stand side by side.
const MOST_HANDLERS: usize = 16;

/// Their names.
const NAMES: [&str; MOST_HANDLERS] = [
    "a", "b", "c", "d", "e", "f", "g", "h", "i", "j", "k", "l", "m", "n", "o", "p",
];

/// The graphs of the LMAX paper's measurements, and two that grow.
#[derive(Clone, Copy)]
pub enum Shape {
    /// One handler.
    Unicast,
    /// Three handlers, one after another.
    Pipeline,
    /// Three handlers side by side.
    Multicast,
    /// Two handlers side by side, and one after both.
    Diamond,
    /// So many handlers, one after another.
    Chain(usize),
    /// So many handlers side by side.
    Side(usize),
}

/// How the producer sends.
#[derive(Clone, Copy)]
pub enum Pace {
    /// Claims of one; on one thread until the ring is full.
    Ones,
    /// One event through the whole graph, and then the next.
    Step,
    /// Claims of so many.
    Claims(u64),
}

/// What is measured. Its text is its name on the command line.
#[derive(Clone, Copy)]
pub struct Topology {
    pub exchange: Exchange,
    pub shape: Shape,
    pub pace: Pace,
}

/// The main topologies: those of the tables, and a row for each further width of an event.
pub const LISTED: [&str; 46] = [
    "core-unicast",
    "core-unicast-step",
    "core-unicast-b10",
    "core-pipeline",
    "core-pipeline-step",
    "core-pipeline-b10",
    "core-multicast",
    "core-multicast-step",
    "core-multicast-b10",
    "core-diamond",
    "core-diamond-step",
    "core-diamond-b10",
    "unicast",
    "unicast-b10",
    "unicast-b100",
    "pipeline",
    "pipeline-b10",
    "pipeline-b100",
    "multicast",
    "multicast-b10",
    "multicast-b100",
    "diamond",
    "diamond-b10",
    "diamond-b100",
    "plain-unicast",
    "plain-unicast-b10",
    "plain-unicast-b100",
    "plain-pipeline",
    "plain-pipeline-b10",
    "plain-pipeline-b100",
    "plain-multicast",
    "plain-multicast-b10",
    "plain-multicast-b100",
    "plain-diamond",
    "plain-diamond-b10",
    "plain-diamond-b100",
    "run-unicast",
    "run-unicast-b10",
    "run-multicast",
    "run-multicast-b10",
    "core1-unicast",
    "plain1-unicast",
    "core8-unicast",
    "plain8-unicast",
    "core16-unicast",
    "plain16-unicast",
];

/// The most producers of an exchange.
const MOST_PRODUCERS: u64 = 16;

impl Exchange {
    /// Reads the width and, after a dash, the rest of a name.
    fn of_width(is_core: bool, rest: &str) -> Option<(Exchange, &str)> {
        let (width, rest) = rest.split_once('-')?;
        let width = Width::named(width)?;
        let exchange = if is_core {
            Exchange::Core(width)
        } else {
            Exchange::Plain(width)
        };
        Some((exchange, rest))
    }

    /// Reads the count of producers and, after a dash, the rest of a name.
    fn of_producers(is_locked: bool, rest: &str) -> Option<(Exchange, &str)> {
        let (producers, rest) = rest.split_once('-')?;
        let producers = count_of(producers, MOST_PRODUCERS)?;
        let exchange = if is_locked {
            Exchange::Lock(producers)
        } else {
            Exchange::PlainSenders(producers)
        };
        Some((exchange, rest))
    }

    /// Reads the beginning of a topology's name, and gives the rest with it.
    fn before(name: &str) -> Option<(Exchange, &str)> {
        if let Some(rest) = name.strip_prefix("core") {
            return Exchange::of_width(true, rest);
        }
        if let Some(rest) = name.strip_prefix("plain-senders") {
            return Exchange::of_producers(false, rest);
        }
        if let Some(rest) = name.strip_prefix("plain") {
            return Exchange::of_width(false, rest);
        }
        if let Some(rest) = name.strip_prefix("run-") {
            return Some((Exchange::InOneCall, rest));
        }
        if let Some(rest) = name.strip_prefix("lock") {
            return Exchange::of_producers(true, rest);
        }
        Some((Exchange::Ring, name))
    }

    /// What it is called.
    pub fn word(self) -> &'static str {
        match self {
            Exchange::Core(_) => "core",
            Exchange::Ring => "ring",
            Exchange::Plain(_) => "plain",
            Exchange::InOneCall => "run",
            Exchange::PlainSenders(_) => "plain-senders",
            Exchange::Lock(_) => "lock",
        }
    }

    /// Whether a producer can send to it so: threads have no steps.
    fn has(self, pace: Pace) -> bool {
        matches!(self, Exchange::Core(_)) || !matches!(pace, Pace::Step)
    }
}

/// A count of at least 1 and at most so many, in digits.
pub fn count_of(word: &str, most: u64) -> Option<u64> {
    let count: u64 = word.parse().ok()?;
    if count == 0 || count > most {
        return None;
    }
    Some(count)
}

/// Which comes after which in a chain.
const STEPS: [(&str, &str); 15] = [
    ("a", "b"),
    ("b", "c"),
    ("c", "d"),
    ("d", "e"),
    ("e", "f"),
    ("f", "g"),
    ("g", "h"),
    ("h", "i"),
    ("i", "j"),
    ("j", "k"),
    ("k", "l"),
    ("l", "m"),
    ("m", "n"),
    ("n", "o"),
    ("o", "p"),
];

/// Declares the first handlers, and connects some of them.
fn declare(
    builder: &mut GraphBuilder,
    handlers: usize,
    edges: &[(&str, &str)],
) -> Result<(), GraphFault> {
    builder.handle_with(NAMES.get(..handlers).unwrap_or(&NAMES))?;
    for (up, down) in edges {
        builder.edge(up, down)?;
    }
    Ok(())
}

impl Shape {
    fn named(name: &str) -> Option<Shape> {
        match name {
            "unicast" => Some(Shape::Unicast),
            "pipeline" => Some(Shape::Pipeline),
            "multicast" => Some(Shape::Multicast),
            "diamond" => Some(Shape::Diamond),
            _ => Shape::that_grows(name),
        }
    }

    fn that_grows(name: &str) -> Option<Shape> {
        let (is_chain, handlers) = match name.strip_prefix("chain") {
            Some(handlers) => (true, handlers),
            None => (false, name.strip_prefix("side")?),
        };
        let handlers = count_of(handlers, MOST_HANDLERS as u64)? as usize;
        Some(if is_chain {
            Shape::Chain(handlers)
        } else {
            Shape::Side(handlers)
        })
    }

    /// How many handlers it has.
    pub fn handlers(self) -> usize {
        match self {
            Shape::Unicast => 1,
            Shape::Pipeline | Shape::Multicast | Shape::Diamond => 3,
            Shape::Chain(handlers) | Shape::Side(handlers) => handlers,
        }
    }

    /// Which comes after which.
    fn edges(self) -> &'static [(&'static str, &'static str)] {
        match self {
            Shape::Unicast | Shape::Multicast | Shape::Side(_) => &[],
            Shape::Pipeline => &[("a", "b"), ("b", "c")],
            Shape::Diamond => &[("a", "c"), ("b", "c")],
            Shape::Chain(handlers) => STEPS.get(..handlers.saturating_sub(1)).unwrap_or(&STEPS),
        }
    }

    /// The graph of its handlers.
    pub fn graph(self, alloc: Global) -> Result<Graph, GraphFault> {
        let mut builder = GraphBuilder::new(alloc);
        declare(&mut builder, self.handlers(), self.edges())?;
        builder.build()
    }
}

impl fmt::Display for Shape {
    fn fmt<W: fmt::Write>(&self, f: &mut fmt::Formatter<W>) -> fmt::Result {
        match self {
            Shape::Unicast => f.write_str("unicast"),
            Shape::Pipeline => f.write_str("pipeline"),
            Shape::Multicast => f.write_str("multicast"),
            Shape::Diamond => f.write_str("diamond"),
            Shape::Chain(handlers) => write!(f, "chain{handlers}"),
            Shape::Side(handlers) => write!(f, "side{handlers}"),
        }
    }
}

/// The most events of a claim.
const MOST_CLAIMED: u64 = 1000;

impl Pace {
    fn named(name: &str) -> Option<Pace> {
        if name == "step" {
            return Some(Pace::Step);
        }
        Some(Pace::Claims(count_of(name.strip_prefix("b")?, MOST_CLAIMED)?))
    }

    /// How many events a claim asks for, where the ring has so many slots.
    pub fn claim(self) -> u64 {
        match self {
            Pace::Ones | Pace::Step => 1,
            Pace::Claims(events) => events,
        }
    }
}

impl fmt::Display for Pace {
    fn fmt<W: fmt::Write>(&self, f: &mut fmt::Formatter<W>) -> fmt::Result {
        match self {
            Pace::Ones => Ok(()),
            Pace::Step => f.write_str("-step"),
            Pace::Claims(events) => write!(f, "-b{events}"),
        }
    }
}

impl Topology {
    /// The topology of a name, where there is one.
    pub fn named(name: &str) -> Option<Topology> {
        let (exchange, rest) = Exchange::before(name)?;
        let (shape, pace) = match rest.split_once('-') {
            Some((shape, pace)) => (Shape::named(shape)?, Pace::named(pace)?),
            None => (Shape::named(rest)?, Pace::Ones),
        };
        if !exchange.has(pace) {
            return None;
        }
        Some(Topology {
            exchange,
            shape,
            pace,
        })
    }
}

impl fmt::Display for Topology {
    fn fmt<W: fmt::Write>(&self, f: &mut fmt::Formatter<W>) -> fmt::Result {
        let word = self.exchange.word();
        match self.exchange {
            Exchange::Ring => (),
            Exchange::InOneCall => write!(f, "{word}-")?,
            Exchange::Core(width) | Exchange::Plain(width) => write!(f, "{word}{width}-")?,
            Exchange::PlainSenders(count) | Exchange::Lock(count) => write!(f, "{word}{count}-")?,
        }
        let (shape, pace) = (self.shape, self.pace);
        write!(f, "{shape}{pace}")
    }
}
