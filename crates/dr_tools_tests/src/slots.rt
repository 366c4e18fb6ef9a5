//! That the calls succeed with ample memory, and the fault's text.

use crate::checks::{check, check_text};
use dr_seq::{Event, Rounds, Size, SizeFault, Slots};
use std::test::Fail;

const SIZES: [u64; 5] = [1, 2, 4, 1024, 65536];

const NO_SIZES: [u64; 7] = [0, 3, 6, 1000, 65537, 131072, u64::MAX];

#[test]
fn sizes_are_powers_of_two(rt: HostRuntime) {
    for n in &SIZES {
        assert!(rt; Size::new(*n).is_ok());
    }
}

#[test]
fn other_numbers_are_no_sizes(rt: HostRuntime) {
    for n in &NO_SIZES {
        assert!(rt; Size::new(*n).is_err());
    }
}

#[test]
fn a_size_fault_prints_its_name(rt: HostRuntime) {
    check_text(&rt, rt.alloc(), SizeFault, "bad-size");
}

fn event(first: u64) -> Event {
    Event { first, second: 9 }
}

#[test]
fn a_stretch_is_copied_round_the_end(rt: HostRuntime) -> Result<(), Fail> {
    let mut slots = Slots::new(rt.alloc(), Size::new(4)?, Event::NONE)?;
    slots.put(3, event(3));
    slots.put(4, event(4));
    let mut out = [Event::NONE; 3];
    slots.copy_to(3, &mut out);
    check(&rt, out, [event(3), event(4), Event::NONE]);
    Ok(())
}

#[test]
fn a_mark_counts_in_its_own_round(rt: HostRuntime) -> Result<(), Fail> {
    let mut rounds = Rounds::new(rt.alloc(), Size::new(4)?)?;
    check(&rt, rounds.front(0, 4), 0);
    rounds.mark(0);
    rounds.mark(1);
    rounds.mark(3);
    check(&rt, rounds.front(0, 4), 2);
    check(&rt, rounds.is_marked(4), false);
    rounds.mark(4);
    check(
        &rt,
        (rounds.is_marked(4), rounds.is_marked(0)),
        (true, false),
    );
    check(&rt, rounds.front(1, 5), 2);
    rounds.mark(2);
    check(&rt, rounds.front(1, 5), 5);
    Ok(())
}
