//! What the program is asked.

use dr_workers::WaitStrategy;
use std::fmt;
use std::num::NonZeroU64;

/// What the events of a measurement go through.
#[derive(Clone, Copy)]
pub enum Exchange {
    Ring,
    Plain,
    PlainSenders,
}

impl Exchange {
    pub const ALL: [Exchange; 3] = [Exchange::Ring, Exchange::Plain, Exchange::PlainSenders];

    fn name(self) -> &'static str {
        match self {
            Exchange::Ring => "ring",
            Exchange::Plain => "plain",
            Exchange::PlainSenders => "plain-senders",
        }
    }

    fn named(word: &str) -> Option<Exchange> {
        match word {
            "ring" => Some(Exchange::Ring),
            "plain" => Some(Exchange::Plain),
            "plain-senders" => Some(Exchange::PlainSenders),
            _ => None,
        }
    }
}

impl fmt::Display for Exchange {
    fn fmt<W: fmt::Write>(&self, f: &mut fmt::Formatter<W>) -> fmt::Result {
        f.write_str(self.name())
    }
}

/// All ways in which the threads may wait.
pub const STRATEGIES: [WaitStrategy; 3] = [
    WaitStrategy::Yielding,
    WaitStrategy::Spinning,
    WaitStrategy::Parking,
];

fn strategy(word: &str) -> Option<WaitStrategy> {
    match word {
        "yielding" => Some(WaitStrategy::Yielding),
        "spinning" => Some(WaitStrategy::Spinning),
        "parking" => Some(WaitStrategy::Parking),
        _ => None,
    }
}

/// A measurement: how many events there are, and how many nanoseconds lie between two of them.
#[derive(Clone, Copy)]
pub struct Order {
    pub exchange: Exchange,
    pub strategy: WaitStrategy,
    pub events: usize,
    pub gap: u64,
}

/// What is asked: the program's modes.
#[derive(Clone, Copy)]
pub enum Task {
    Check,
    Lone {
        strategy: WaitStrategy,
        events: u64,
    },
    Idle {
        strategy: WaitStrategy,
        seconds: u64,
    },
    OneSlot {
        events: u64,
        micros: u64,
    },
    Rate {
        strategy: WaitStrategy,
        thousands: u64,
        cut: NonZeroU64,
    },
    Latency(Order),
}

fn read_check(mode: &str) -> Option<Task> {
    match mode {
        "--check" => Some(Task::Check),
        _ => None,
    }
}

fn two_words(mode: &str, first: &str, second: &str) -> Option<Task> {
    let number: u64 = second.parse().ok()?;
    match mode {
        "lone" => Some(Task::Lone {
            strategy: strategy(first)?,
            events: number,
        }),
        "idle" => Some(Task::Idle {
            strategy: strategy(first)?,
            seconds: number,
        }),
        "one-slot" => Some(Task::OneSlot {
            events: first.parse().ok()?,
            micros: number,
        }),
        _ => None,
    }
}

fn read_rate(mode: &str, way: &str, thousands: &str, cut: &str) -> Option<Task> {
    if mode != "rate" {
        return None;
    }
    Some(Task::Rate {
        strategy: strategy(way)?,
        thousands: thousands.parse().ok()?,
        cut: NonZeroU64::new(cut.parse().ok()?)?,
    })
}

fn read_order(mode: &str, exchange: &str, way: &str, events: &str, gap: &str) -> Option<Task> {
    if mode != "latency" {
        return None;
    }
    Some(Task::Latency(Order {
        exchange: Exchange::named(exchange)?,
        strategy: strategy(way)?,
        events: events.parse().ok()?,
        gap: gap.parse().ok()?,
    }))
}

/// Reads the program's words.
pub fn read(words: &[String]) -> Option<Task> {
    match words {
        [only] => read_check(only.as_str()),
        [mode, first, second] => two_words(mode.as_str(), first.as_str(), second.as_str()),
        [mode, way, thousands, cut] => {
            read_rate(
                mode.as_str(),
                way.as_str(),
                thousands.as_str(),
                cut.as_str(),
            )
        }
        [mode, exchange, way, events, gap] => read_order(
            mode.as_str(),
            exchange.as_str(),
            way.as_str(),
            events.as_str(),
            gap.as_str(),
        ),
        _ => None,
    }
}
