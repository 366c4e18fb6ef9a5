//! The line of a state.

ghost use Rattle.std.specs.Prelude.{◌≡◌, ◌++◌, ◌<◌, OnOk, flat_map, string_bytes};
ghost use Rattle.std.specs.List.{range_with_len};
ghost use Rattle.dr_meaning.specs.Meaning.Machine.{handlers};
ghost use Rattle.dr_drive.specs.Inside.States.{counts_seen, handler_seen, state_seen, with_state};

use crate::standing::{name_of, ready, room};
use dr_core::Core;
use dr_seq::Event;
use std::alloc::AllocError;

fn push_handler(line: &mut String, core: &Core<Event>, h: usize) -> Result<(), AllocError>
    requires { h < handlers core.now.setup }
    ensures { OnOk result (string_bytes line.new ≡ string_bytes line.old ++ handler_seen core.now h) }
{
    let name = name_of(core.graph(), h);
    let count = ready(core, h);
    let completed = core.completed(h);
    write!(line, " {name} {count} {completed}")
}

fn push_handlers(line: &mut String, core: &Core<Event>) -> Result<(), AllocError>
    ensures { OnOk result (string_bytes line.new ≡ string_bytes line.old ++ flat_map (handler_seen core.now) (range_with_len 0 (handlers core.now.setup))) }
{
    for h in 0..core.graph().len() {
        push_handler(line, core, h)?;
    }
    Ok(())
}

// Puts how far a core is, and its room.
fn push_counts(line: &mut String, core: &Core<Event>, limit: u64) -> Result<(), AllocError>
    requires { limit ≡ core.now.setup.limit }
    ensures { OnOk result (string_bytes line.new ≡ string_bytes line.old ++ counts_seen core.now) }
{
    let next = core.next();
    let front = core.front();
    let room = room(core, limit);
    write!(line, "state next {next} front {front} room {room}")
}

// Puts the line of a core's state after what there is.
fn push_state(line: &mut String, core: &Core<Event>, limit: u64) -> Result<(), AllocError>
    requires { limit ≡ core.now.setup.limit }
    ensures { OnOk result (string_bytes line.new ≡ string_bytes line.old ++ state_seen core.now) }
{
    push_counts(line, core, limit)?;
    push_handlers(line, core)?;
    line.push_str("\n")
}

/// Puts the line of a core's state after what there is, where it is told.
pub fn push_state_if(
    told: bool,
    line: &mut String,
    core: &Core<Event>,
    limit: u64,
) -> Result<(), AllocError>
    requires { limit ≡ core.now.setup.limit }
    ensures { OnOk result (string_bytes line.new ≡ with_state told (string_bytes line.old) core.now) }
{
    if told {
        push_state(line, core, limit)
    } else {
        Ok(())
    }
}
