//! Two threads leave something at once.

ghost use Rattle.std.specs.Prelude.{◌≡◌};

use crate::leaving::{Numbered, make_numbered, three_places};
use dr_places::Places;
use std::sync::Arc;
use std::test::Fail;
use std::thread::join;

fn leave_first(places: &Places<Numbered, u64>, it: Numbered) -> bool
    requires { (places.now.key ≡ 7) × (places.now.count ≡ 3) × (it.number ≡ 7) }
{
    places.leave(0, it).is_ok()
}

fn leave_second(places: &Places<Numbered, u64>, it: Numbered) -> bool
    requires { (places.now.key ≡ 7) × (places.now.count ≡ 3) × (it.number ≡ 8) }
{
    places.leave(1, it).is_ok()
}

#[test]
fn each_thread_leaves_its_own(rt: HostRuntime) -> Result<(), Fail> {
    let held = Arc::new(rt.alloc(), 0u64)?;
    let places = three_places(rt.alloc())?;
    let first = make_numbered(7, &held)?;
    let second = make_numbered(8, &held)?;
    let both = join(
        &rt,
        || -> bool
            requires { (places.key ≡ 7) × (places.count ≡ 3) × (first.number ≡ 7) }
        { leave_first(&places, first) },
        || -> bool
            requires { (places.key ≡ 7) × (places.count ≡ 3) × (second.number ≡ 8) }
        { leave_second(&places, second) },
    );
    assert!(rt; both == (true, true) && Arc::strong_count(&held) == 3);
    assert!(rt; places.leave(2, make_numbered(9, &held)?).is_ok());
    let Some(all) = places.close() else {
        return Err(Fail::from("a place is empty"));
    };
    assert!(rt; all.len() == 3);
    drop(all);
    assert!(rt; Arc::strong_count(&held) == 1);
    Ok(())
}
