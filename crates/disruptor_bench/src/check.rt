//! The program's check of itself: a round of each kind of topology, whose sums come out, and command
//! lines that ask for nothing.

use crate::arguments::order_of;
use crate::fault::Fault;
use crate::measure;
use crate::measured::{Measured, Round, median};
use std::alloc::Global;
use std::rt::Runtime;
use std::sync::Wait;
use std::thread::Threads;
use std::time::Duration;

/// Topologies of which a round is checked: each shape over each exchange, and further ones.
const CHECKED: [&str; 46] = [
    "core-unicast",
    "core-unicast-step",
    "core-unicast-b10",
    "unicast-b10",
    "plain-unicast-b10",
    "plain-senders1-unicast-b10",
    "plain-senders3-unicast-b10",
    "lock1-unicast-b10",
    "lock3-unicast-b10",
    "core-pipeline",
    "core-pipeline-step",
    "core-pipeline-b10",
    "pipeline-b10",
    "plain-pipeline-b10",
    "plain-senders1-pipeline-b10",
    "plain-senders3-pipeline-b10",
    "lock1-pipeline-b10",
    "lock3-pipeline-b10",
    "core-multicast",
    "core-multicast-step",
    "core-multicast-b10",
    "multicast-b10",
    "plain-multicast-b10",
    "plain-senders1-multicast-b10",
    "plain-senders3-multicast-b10",
    "lock1-multicast-b10",
    "lock3-multicast-b10",
    "core-diamond",
    "core-diamond-step",
    "core-diamond-b10",
    "diamond-b10",
    "plain-diamond-b10",
    "plain-senders1-diamond-b10",
    "plain-senders3-diamond-b10",
    "lock1-diamond-b10",
    "lock3-diamond-b10",
    "core1-unicast",
    "core8-diamond-b7",
    "core16-unicast-step",
    "core-chain1",
    "core-side16-b1000",
    "side2-b7",
    "plain8-diamond",
    "plain16-side3-b7",
    "run-unicast",
    "run-diamond-b10",
];

/// Command lines that ask for nothing.
const WRONG: [[&str; 4]; 30] = [
    ["", "64", "0", "1"],
    ["core", "64", "0", "1"],
    ["core-", "64", "0", "1"],
    ["core2-unicast", "64", "0", "1"],
    ["unicast-step", "64", "0", "1"],
    ["plain", "64", "0", "1"],
    ["plain2-unicast", "64", "0", "1"],
    ["plain-unicast-step", "64", "0", "1"],
    ["core-unicast-b0", "64", "0", "1"],
    ["core-unicast-b1001", "64", "0", "1"],
    ["chain", "64", "0", "1"],
    ["chain17", "64", "0", "1"],
    ["side0", "64", "0", "1"],
    ["diamond-", "64", "0", "1"],
    ["lock0-unicast", "64", "0", "1"],
    ["lock17-unicast", "64", "0", "1"],
    ["lock2-unicast-step", "64", "0", "1"],
    ["lock2", "64", "0", "1"],
    ["senders3-unicast", "64", "0", "1"],
    ["plain-senders0-unicast", "64", "0", "1"],
    ["plain-senders17-unicast", "64", "0", "1"],
    ["plain-senders3-unicast-step", "64", "0", "1"],
    ["plain-senders3", "64", "0", "1"],
    ["run-unicast-step", "64", "0", "1"],
    ["Diamond", "64", "0", "1"],
    ["unicorn", "64", "0", "1"],
    ["unicast", "63", "0", "1"],
    ["unicast", "64", "-1", "1"],
    ["unicast", "64", "0", "0"],
    ["unicast", "64", "0", "1001"],
];

/// Prints the name of a topology as it was read, and how many events a round of it had.
fn check_round(
    rt: &(impl Runtime + Threads + Wait + Sync + Copy + Send + 'static),
    alloc: Global,
    name: &str,
) -> Result<(), Fault> {
    let Some(order) = order_of(name, "64", "0", "1") else {
        return Err(Fault::USAGE);
    };
    let events = measure(rt, alloc, &order)?.events;
    let topology = order.topology;
    println!(rt; "{topology} {events}")?;
    Ok(())
}

fn check_rounds(
    rt: &(impl Runtime + Threads + Wait + Sync + Copy + Send + 'static),
    alloc: Global,
) -> Result<(), Fault> {
    for name in &CHECKED {
        check_round(rt, alloc, *name)?;
    }
    Ok(())
}

fn print_verdict(rt: &impl Runtime, [name, size, seconds, rounds]: [&str; 4]) -> Result<(), Fault> {
    let verdict = match order_of(name, size, seconds, rounds) {
        Some(_) => "is read",
        None => "is wrong",
    };
    println!(rt; "'{name} {size} {seconds} {rounds}' {verdict}")?;
    Ok(())
}

fn check_wrong(rt: &impl Runtime) -> Result<(), Fault> {
    for words in &WRONG {
        print_verdict(rt, *words)?;
    }
    Ok(())
}

/// The round in the middle of three by events a second.
fn middle() -> Option<Round> {
    let time = Duration::from_millis(1500);
    let mut rounds = [
        Round { events: 30, time },
        Round { events: 20, time },
        Round { events: 10, time },
    ];
    median(&mut rounds)
}

/// Prints the line of three rounds.
fn check_line(rt: &impl Runtime) -> Result<(), Fault> {
    let Some(order) = order_of("diamond", "64", "0.25", "3") else {
        return Err(Fault::USAGE);
    };
    let median = middle().ok_or(Fault::USAGE)?;
    Ok(rt.println(Measured { order, median })?)
}

/// Prints what `make test` compares.
pub fn check(
    rt: &(impl Runtime + Threads + Wait + Sync + Copy + Send + 'static),
    alloc: Global,
) -> Result<(), Fault> {
    check_line(rt)?;
    check_wrong(rt)?;
    check_rounds(rt, alloc)
}
