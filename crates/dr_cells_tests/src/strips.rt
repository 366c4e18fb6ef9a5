//! Strips of values that own memory, which are dropped once each.
ghost use Rattle.std.specs.Prelude.{◌≡◌, IfOk, length};

use crate::lending::{Event, use_first};
use dr_cells::Strip;
use std::alloc::Global;
use std::sync::Arc;
use std::test::Fail;

fn make_event(alloc: Global, name: &str, alive: &Arc<()>) -> Result<Event, Fail> {
    Ok(Event {
        name: String::from_str(alloc, name)?,
        alive: Arc::try_clone(alive)?,
    })
}

fn two_events(alloc: Global, alive: &Arc<()>) -> Result<Vec<Event>, Fail>
    ensures { IfOk result (λ events. length events.items ≡ 2) }
{
    let first = make_event(alloc, "one", alive)?;
    let second = make_event(alloc, "two", alive)?;
    Ok(Vec::from_array(alloc, [first, second])?)
}

#[test]
fn a_strip_is_written_lent_and_dropped(rt: HostRuntime) -> Result<(), Fail> {
    let alloc = rt.alloc();
    let alive = Arc::new(alloc, ())?;
    let events = two_events(alloc, &alive)?;
    let Ok((strip, row)) = Strip::new(alloc, events) else {
        return Err(Fail::from("no memory"));
    };
    let (whole, lengths) = use_first(&rt, strip.cells, row)?;
    assert_eq!(rt; lengths, (8, 8));
    let mut values = strip.close(whole);
    assert_eq!(rt; values.next().map(|x| x.name.len()), Some(8));
    assert_eq!(rt; Arc::strong_count(&alive), 2);
    drop(values);
    assert_eq!(rt; Arc::strong_count(&alive), 1);
    Ok(())
}
