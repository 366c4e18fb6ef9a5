//! The tools over streams: `drive`, and a replay by each of its ways.

use dr_drive::{DriveFault, drive};
use dr_files::Counted;
use dr_replay::{ReplayFault, replay_lock, replay_plain, replay_ring};
use dr_seq::Size;
use dr_workers::Gate;
use std::alloc::Global;
use std::io::{Read, Write};
use std::sync::Wait;
use std::thread::Threads;

// Which tool runs, and a replay by which exchange.
#[derive(Clone, Copy)]
pub enum Way {
    Drive,
    Plain,
    Lock,
    Ring,
}

// Why a run ended early.
#[derive(Drop)]
pub enum Failed {
    Drive(DriveFault),
    Replay(ReplayFault),
}

// What a run left of its reader and its writer, and how it ended.
#[derive(Drop)]
pub struct Streamed<I, O> {
    pub reader: Counted<I>,
    pub writer: Counted<O>,
    pub result: Result<(), Failed>,
}

// Runs from a reader to a writer. On one thread there is no gate to pass, and `drive` has a size of its own.
pub fn run_streams<R: Threads + Wait + Sync, I: Read + Drop, O: Write + Drop, G: Gate + Sync>(
    rt: &R,
    alloc: Global,
    by: Way,
    input: I,
    output: O,
    size: Size,
    gate: &G,
) -> Streamed<I, O> {
    let mut reader = Counted::new(input);
    let mut writer = Counted::new(output);
    let result = match by {
        Way::Drive => drive(alloc, &mut reader, &mut writer).map_err(Failed::Drive),
        Way::Plain => replay_plain(alloc, &mut reader, &mut writer, size).map_err(Failed::Replay),
        Way::Lock => replay_lock(rt, alloc, &mut reader, &mut writer, size, gate).map_err(
            Failed::Replay,
        ),
        Way::Ring => replay_ring(rt, alloc, &mut reader, &mut writer, size, gate).map_err(
            Failed::Replay,
        ),
    };
    Streamed {
        reader,
        writer,
        result,
    }
}

// What a replay of a text wrote, and how it ended.
pub fn replay_text<R: Threads + Wait + Sync, G: Gate + Sync>(
    rt: &R,
    alloc: Global,
    by: Way,
    input: &str,
    size: Size,
    gate: &G,
) -> (Vec<u8>, Result<(), Failed>) {
    let output = Vec::new(alloc);
    let Streamed { writer, result, .. } = run_streams(
        rt,
        alloc,
        by,
        input.as_bytes(),
        output,
        size,
        gate,
    );
    (writer.into_inner(), result)
}
