//! Two threads take turns at one cell.
use crate::passing::take_turns;
use dr_cells::{Row, Strip};
use std::alloc::Global;
use std::test::Fail;
use std::thread::Threads;

// The strip's one cell after the threads' turns, and how many there were.
fn add_by_turns<R: Threads + Sync>(rt: &R, alloc: Global) -> Result<(Option<u64>, u64), Fail> {
    let items = Vec::from_array(alloc, [5u64])?;
    let Ok((strip, mut row)) = Strip::new(alloc, items) else {
        return Err(Fail::from("no memory"));
    };
    let cells = strip.cells;
    let Some((token, turns)) = take_turns(rt, alloc, cells, row.take()) else {
        return Err(Fail::from("no memory, or no token"));
    };
    let mut whole = Row::none(cells);
    whole.give(token);
    let mut values = strip.close(whole);
    Ok((values.next(), turns))
}

#[test]
fn a_token_goes_from_thread_to_thread(rt: HostRuntime) -> Result<(), Fail> {
    let (last, turns) = add_by_turns(&rt, rt.alloc())?;
    assert!(rt; turns > 0);
    assert_eq!(rt; last, Some(turns.wrapping_add(5)));
    Ok(())
}
