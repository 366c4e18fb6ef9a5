//! The command line.

use crate::topology::{Topology, count_of};
use dr_seq::Size;
use std::time::Duration;

/// What the command line asks for.
#[derive(Clone, Copy)]
pub enum Request {
    /// The names of all topologies.
    List,
    /// The program's check of itself.
    Check,
    /// A measurement.
    Measure(Order),
}

/// A measurement: how many slots the ring has, about how long a round takes, and how many rounds
/// there are.
#[derive(Clone, Copy)]
pub struct Order {
    pub topology: Topology,
    pub size: Size,
    pub time: Duration,
    pub rounds: u64,
}

impl Order {
    /// How many events a claim asks for: never more than there are slots.
    pub fn claim(&self) -> u64 {
        self.topology.pace.claim().min(self.size.get())
    }
}

/// The most rounds of a measurement.
const MOST_ROUNDS: u64 = 1000;

/// Reads a measurement. The seconds may have a fraction.
pub fn order_of(topology: &str, size: &str, seconds: &str, rounds: &str) -> Option<Order> {
    let seconds: f64 = seconds.parse().ok()?;
    Some(Order {
        topology: Topology::named(topology)?,
        size: Size::new(size.parse().ok()?).ok()?,
        time: Duration::try_from_secs_f64(seconds).ok()?,
        rounds: count_of(rounds, MOST_ROUNDS)?,
    })
}

/// Reads the words after the program's own name.
pub fn read_request(words: &[String]) -> Option<Request> {
    match words {
        [only] => match only.as_str() {
            "--list" => Some(Request::List),
            "--check" => Some(Request::Check),
            _ => None,
        },
        [topology, size, seconds, rounds] => {
            let (topology, size) = (topology.as_str(), size.as_str());
            match order_of(topology, size, seconds.as_str(), rounds.as_str()) {
                Some(order) => Some(Request::Measure(order)),
                None => None,
            }
        }
        _ => None,
    }
}
