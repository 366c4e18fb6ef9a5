//! Each type goes to another thread, or is shared with one.
use dr_cells::{Row, Strip};
use std::alloc::Global;
use std::test::Fail;
use std::thread::join;

fn two_cells(alloc: Global) -> Result<(Strip<u64>, Row<u64>), Fail> {
    let items = Vec::from_array(alloc, [1u64, 2])?;
    match Strip::new(alloc, items) {
        Ok(both) => Ok(both),
        Err(_) => Err(Fail::from("no memory")),
    }
}

fn length_of(strip: &Strip<u64>) -> usize {
    strip.len
}

#[test]
fn a_strip_and_its_row_go_to_another_thread(rt: HostRuntime) -> Result<(), Fail> {
    let (strip, row) = two_cells(rt.alloc())?;
    let ((strip, row), seen) = join(&rt, move || (strip, row), || 1u64);
    drop(row);
    assert_eq!(rt; (length_of(&strip), seen), (2, 1));
    Ok(())
}

#[test]
fn a_strip_is_shared_with_another_thread(rt: HostRuntime) -> Result<(), Fail> {
    let (strip, _row) = two_cells(rt.alloc())?;
    assert_eq!(rt;
        join(&rt, || length_of(&strip), || length_of(&strip)),
        (2, 2)
    );
    Ok(())
}
