//! Runs of each tool whose reader or writer fails at its k-th call, for every k until a run meets no failure.

use crate::checks::check_at;
use crate::streams::{
    Slow, ends_as, failing_at, is_left, is_left_whole, is_read, slow_at, whole_at,
};
use crate::ways::{Failed, Streamed, Way, run_streams};
use dr_files::Counted;
use dr_seq::Size;
use dr_workers::OpenGate;
use std::alloc::Global;
use std::process::Abort;
use std::sync::Wait;
use std::thread::Threads;

// A run that is to go well, and what is known of its calls.
struct Run {
    by: Way,
    input: &'static str,
    output: &'static str,
    // How many calls it makes of its reader.
    reads: u64,
    // What a writer that takes whole pieces has before each of its calls, of which the last is a flush after the run.
    pieces: &'static [&'static str],
}

const DRIVEN: &str = "claimed 0 0\nhalting\n";

// Of one producer, so that there is one report by every way.
const REPLAYED: &str = "0,deposit,1,100\n0,withdraw,1,40\n";

// The report as it grows, part by part.
const JOURNAL: &str = "journal 2\n0,0,deposit,1,100\n1,0,withdraw,1,40\n";

const JOURNAL_AND_REPLICA: &str =
    "journal 2\n0,0,deposit,1,100\n1,0,withdraw,1,40\nreplica 2\n0001000100000064\n0002000100000028\n";

const REPORT: &str =
    "journal 2\n0,0,deposit,1,100\n1,0,withdraw,1,40\nreplica 2\n0001000100000064\n0002000100000028\nbusiness 2\n1,60,0\n";

const RUNS: [Run; 4] = [
    Run {
        by: Way::Drive,
        input: "ring,4,single\nwith,a\nstart\nclaim,0,1\nhalt\n",
        output: DRIVEN,
        reads: 5,
        pieces: &["", "claimed 0 0\n", DRIVEN],
    },
    Run {
        by: Way::Plain,
        input: REPLAYED,
        output: REPORT,
        reads: 4,
        pieces: &["", JOURNAL, JOURNAL_AND_REPLICA, REPORT],
    },
    Run {
        by: Way::Lock,
        input: REPLAYED,
        output: REPORT,
        reads: 4,
        pieces: &["", JOURNAL, JOURNAL_AND_REPLICA, REPORT],
    },
    Run {
        by: Way::Ring,
        input: REPLAYED,
        output: REPORT,
        reads: 4,
        pieces: &["", JOURNAL, JOURNAL_AND_REPLICA, REPORT],
    },
];

fn size(rt: &impl Abort) -> Size {
    Size::new(2).expect(rt, "a size")
}

// Whether a run meets a reader that fails at its k-th call if it is to. If so nothing is written, and the reader is called
// no more.
fn read_ends_so(
    rt: &(impl Abort + Threads + Wait + Sync),
    alloc: Global,
    run: &Run,
    fails_at: u64,
) -> bool {
    let input = failing_at(run.input, fails_at);
    let Streamed {
        reader,
        writer,
        result,
    } = run_streams(
        rt,
        alloc,
        run.by,
        input,
        Vec::new(alloc),
        size(rt),
        &OpenGate,
    );
    let meets = fails_at < run.reads;
    let wanted = if meets { "" } else { run.output };
    let output = writer.into_inner();
    let is_written = output.as_slice() == wanted.as_bytes();
    is_written && is_read(&result) == meets && result.is_ok() != meets && is_left(reader, meets)
}

fn check_reads(rt: &(impl Abort + Threads + Wait + Sync), alloc: Global, run: &Run) {
    for fails_at in 1..6 {
        check_at(rt, read_ends_so(rt, alloc, run, fails_at), fails_at);
    }
}

#[test]
fn reads_that_fail(rt: HostRuntime) {
    for run in &RUNS {
        check_reads(&rt, rt.alloc(), run);
    }
}

// How a run into a writer ended, with that writer.
fn run_into(
    rt: &(impl Abort + Threads + Wait + Sync),
    alloc: Global,
    run: &Run,
    writer: Slow,
) -> (Counted<Slow>, Result<(), Failed>) {
    let input = run.input.as_bytes();
    let Streamed { writer, result, .. } = run_streams(
        rt,
        alloc,
        run.by,
        input,
        writer,
        size(rt),
        &OpenGate,
    );
    (writer, result)
}

// Whether a run ends as it is to, whose writer takes a byte a call, and fails at its k-th call, or takes nothing there.
fn write_ends_so(
    rt: &(impl Abort + Threads + Wait + Sync),
    alloc: Global,
    run: &Run,
    fails_at: u64,
    takes_nothing: bool,
) -> bool {
    let (writer, result) = run_into(rt, alloc, run, slow_at(alloc, fails_at, takes_nothing));
    ends_as(&result, writer, run.output.as_bytes())
}

fn check_writes(rt: &(impl Abort + Threads + Wait + Sync), alloc: Global, run: &Run) {
    for fails_at in 1..(run.output.len() as u64).saturating_add(2) {
        check_at(rt, write_ends_so(rt, alloc, run, fails_at, false), fails_at);
        check_at(rt, write_ends_so(rt, alloc, run, fails_at, true), fails_at);
    }
}

#[test]
fn writes_that_fail(rt: HostRuntime) {
    for run in &RUNS {
        check_writes(&rt, rt.alloc(), run);
    }
}

// A writer that takes whole pieces is not called after it failed.
fn whole_write_ends_so(
    rt: &(impl Abort + Threads + Wait + Sync),
    alloc: Global,
    run: &Run,
    fails_at: u64,
    taken: &str,
) -> bool {
    let (writer, result) = run_into(rt, alloc, run, whole_at(alloc, fails_at));
    is_left_whole(&result, writer, taken.as_bytes(), taken == run.output)
}

fn check_whole_writes(rt: &(impl Abort + Threads + Wait + Sync), alloc: Global, run: &Run) {
    let mut fails_at = 1u64;
    for taken in run.pieces {
        check_at(
            rt,
            whole_write_ends_so(rt, alloc, run, fails_at, *taken),
            fails_at,
        );
        fails_at = fails_at.wrapping_add(1);
    }
}

#[test]
fn whole_writes_that_fail(rt: HostRuntime) {
    for run in &RUNS {
        check_whole_writes(&rt, rt.alloc(), run);
    }
}
