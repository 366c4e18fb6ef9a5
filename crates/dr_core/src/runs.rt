//! Whole lists of commands.

ghost use Rattle.std.specs.Prelude.{◌≡◌, ◌++◌, ◌^◌, ◌≤◌, length, OnErr, IfOk, MatchOption};
ghost use Rattle.dr_meaning.specs.Meaning.Machine.{State};
ghost use Rattle.dr_meaning.specs.Meaning.Transcript.{Transcript, LeadsTo};
ghost use Rattle.dr_core.specs.Calls.Reached.{RunsTo};
ghost use Rattle.dr_meaning.specs.Meaning.Runs.{transcript_of, counts_of, needed, offers};
ghost use Rattle.dr_core.specs.Calls.Shows.{Shows};

use crate::engine::Core;
use dr_meaning::{Command, Reply};
use std::alloc::{AllocError, Global};

/// The replies to a list of commands, one a command, and the events of the batches, joined.
#[derive(Drop)]
pub struct Ran<E> {
    pub replies: Vec<Reply>,
    pub values: Vec<E>,
}

/// Runs commands in order, whatever they are answered. All memory is taken before the first
/// command.
pub fn run<E: Copy>(
    alloc: Global,
    core: &mut Core<E>,
    commands: &[Command<E>],
) -> Result<Ran<E>, AllocError>
    // A transcript to a state shown before goes on by these commands to one shown after, with the five laws.
    ensures lawful { IfOk result (λ ran. (t : Transcript E) (m : State E) → LeadsTo core.old.setup t m → Shows core.old m → RunsTo core.old.setup (t ++ transcript_of commands.now ran.replies.items ran.values.items) core.new) }
    // Each command has its reply, and the events are as many as the replies' batches count.
    ensures replies { IfOk result (λ ran. length ran.replies.items ≡ length commands.now) }
    ensures values { IfOk result (λ ran. length ran.values.items ≡ counts_of ran.replies.items) }
    // The core keeps its setup and the names of its handlers.
    ensures setup { core.new.setup ≡ core.old.setup }
    ensures names { core.new.names ≡ core.old.names }
    // If memory runs out, the core is as before.
    ensures refused { OnErr result (core.new ≡ core.old) }
{
    let size = core.size().get() as usize;
    let Some(room) = room_for(commands, size) else {
        return Err(AllocError);
    };
    let mut replies = Vec::with_capacity(alloc, commands.len())?;
    let mut values = Vec::with_capacity(alloc, room)?;
    let mut buffer = Vec::new(alloc);
    buffer.resize(size, core.blank())?;
    for command in commands {
        let reply = core.execute(*command, &mut buffer);
        replies.push(reply)?;
        values.extend_from_slice(&buffer[..reply.count()])?;
    }
    Ok(Ran { replies, values })
}

/// The room that some commands need at most, or `None` past the greatest number.
fn room_for<E: Copy>(commands: &[Command<E>], size: usize) -> Option<usize>
    ensures { MatchOption result (2 ^ 64 ≤ needed commands.now size) (λ room. room ≡ needed commands.now size) }
{
    let mut room: usize = 0;
    for command in commands {
        room = room.checked_add(offered(*command, size))?;
    }
    Some(room)
}

/// The room that a command needs at most.
fn offered<E: Copy>(command: Command<E>, size: usize) -> usize
    ensures { result ≡ offers command size }
{
    match command {
        Command::Poll { h: _, max } => max.min(size),
        _ => 0,
    }
}
