//! The core's rounds: producer and handlers take turns on one thread.

use crate::arguments::Order;
use crate::fault::Fault;
use crate::measured::Round;
use crate::sum::{Sum, sum_of_first};
use crate::topology::Pace;
use crate::width::{Made, Width, Words};
use crate::{MOST_TURNS, STRETCH};
use dr_core::Core;
use dr_meaning::{MAX_LIMIT, Mode, Refusal};
use std::alloc::Global;
use std::rt::Clock;
use std::time::Instant;

/// How events go through: so many claims, and then a turn for each handler.
#[derive(Clone, Copy)]
struct Lap {
    claims: u64,
    claim: u64,
    /// How many laps there are between two looks at the clock.
    in_stretch: u64,
}

impl Lap {
    fn of(order: &Order) -> Lap {
        let claim = order.claim();
        let claims = match order.topology.pace {
            Pace::Step => 1,
            _ => order.size.get().checked_div(claim).unwrap_or(1),
        };
        let events = claims.saturating_mul(claim);
        let in_stretch = STRETCH.checked_div(events).unwrap_or(1);
        Lap {
            claims,
            claim,
            in_stretch,
        }
    }
}

/// Claims, writes and publishes once.
#[inline]
fn send<const MORE: usize>(core: &mut Core<Words<MORE>>, claim: u64) -> Result<(), Refusal> {
    let claimed = core.claim(0, claim)?;
    for k in 0..claim {
        let s = claimed.lo.wrapping_add(k);
        core.write(0, s, Words::at(s))?;
    }
    core.publish(0, claimed.lo, claimed.hi)
}

fn send_all<const MORE: usize>(core: &mut Core<Words<MORE>>, lap: Lap) -> Result<(), Refusal> {
    for _ in 0..lap.claims {
        send(core, lap.claim)?;
    }
    Ok(())
}

/// Each handler is shown all that it is offered, where it lies.
fn take_all<const MORE: usize>(
    core: &mut Core<Words<MORE>>,
    sums: &mut [Sum],
) -> Result<(), Refusal> {
    for (h, sum) in sums.iter_mut().enumerate() {
        core.turn_in_place(h, sum)?;
    }
    Ok(())
}

fn stretch<const MORE: usize>(
    core: &mut Core<Words<MORE>>,
    sums: &mut [Sum],
    lap: Lap,
) -> Result<(), Refusal> {
    for _ in 0..lap.in_stretch {
        send_all(core, lap)?;
        take_all(core, sums)?;
    }
    Ok(())
}

/// Runs for about the round's time, a stretch of events at least.
fn round<const MORE: usize>(
    clock: &impl Clock,
    order: &Order,
    core: &mut Core<Words<MORE>>,
    sums: &mut [Sum],
) -> Result<Round, Fault> {
    let lap = Lap::of(order);
    let before = core.next();
    let begun = Instant::now(clock)?;
    for _ in 0..MOST_TURNS {
        stretch(core, sums, lap)?;
        let time = begun.elapsed(clock)?;
        if time >= order.time {
            let events = core.next().saturating_sub(before);
            return Ok(Round { events, time });
        }
    }
    Err(Fault::NO_END)
}

/// Whether each handler added up all that was ever published.
fn check(sums: &[Sum], events: u64) -> Result<(), Fault> {
    let total = sum_of_first(events);
    for sum in sums {
        if sum.total != total {
            return Err(Fault::WRONG_SUM);
        }
    }
    Ok(())
}

/// Adds the rounds that are ordered, and checks what the handlers added up in all of them.
fn add_rounds<const MORE: usize>(
    clock: &impl Clock,
    order: &Order,
    core: &mut Core<Words<MORE>>,
    sums: &mut [Sum],
    rounds: &mut Vec<Round>,
) -> Result<(), Fault> {
    for _ in 0..order.rounds {
        rounds.push(round(clock, order, core, sums)?)?;
    }
    check(sums, core.next())
}

/// The rounds of a core, with handlers of their own.
fn rounds_over<const MORE: usize>(
    clock: &impl Clock,
    alloc: Global,
    order: &Order,
    core: &mut Core<Words<MORE>>,
    rounds: &mut Vec<Round>,
) -> Result<(), Fault> {
    let mut sums = vec![in alloc; Sum { total: 0 }; core.graph().len()]?;
    add_rounds(clock, order, core, sums.as_mut_slice(), rounds)
}

/// The rounds of a core of their own, whose slots begin with such an event.
fn rounds_with<const MORE: usize>(
    clock: &impl Clock,
    alloc: Global,
    order: &Order,
    first: Words<MORE>,
    rounds: &mut Vec<Round>,
) -> Result<(), Fault> {
    let graph = order.topology.shape.graph(alloc)?;
    let Ok(mut core) = Core::open(alloc, graph, order.size, Mode::Single, MAX_LIMIT, first) else {
        return Err(Fault::MEMORY);
    };
    rounds_over(clock, alloc, order, &mut core, rounds)
}

/// The rounds of a core of their own, with events of a width.
pub fn rounds(
    clock: &impl Clock,
    alloc: Global,
    order: &Order,
    width: Width,
    rounds: &mut Vec<Round>,
) -> Result<(), Fault> {
    match width {
        Width::One => rounds_with(clock, alloc, order, Words::<0>::at(0), rounds),
        Width::Two => rounds_with(clock, alloc, order, Words::<1>::at(0), rounds),
        Width::Eight => rounds_with(clock, alloc, order, Words::<7>::at(0), rounds),
        Width::Sixteen => rounds_with(clock, alloc, order, Words::<15>::at(0), rounds),
    }
}
