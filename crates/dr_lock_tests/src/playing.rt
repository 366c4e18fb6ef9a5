//! Worked runs, played through a lock from one thread: each reply, and which of them are kept.

ghost use Rattle.std.specs.Prelude.{◌≡◌};

use crate::checks::check;
use crate::histories::{opened, room, word};
use crate::rows::{RUNS, Run};
use crate::words::{Answer, Call};
use dr_lock::{End, Entry, Exchange, Recorded, Shared, finish};
use dr_meaning::Reply::{Gating, Idle, Refused};
use dr_meaning::{Command, Reply};
use dr_seq::Event;
use std::alloc::Global;
use std::marker::Brand;
use std::process::Abort;
use std::sync::Wait;
use std::sync::ledger::Blank;

fn reply_of<L: Exchange<Event>, R: Wait + Abort>(
    rt: &R,
    shared: &Shared<Event, L>,
    end: &mut End<Event, L>,
    command: Command<Event>,
) -> Reply {
    let mut out = [Event::NONE; 8];
    assert!(rt; room(command) <= 8);
    let answer = shared.call(rt, end, command, &mut out);
    answer.expect(rt, "memory")
}

/// Makes a run's calls through an end, and adds those that are to be kept.
pub fn play_rows<L: Exchange<Event>, R: Wait + Abort>(
    rt: &R,
    shared: &Shared<Event, L>,
    end: &mut End<Event, L>,
    rows: &[(Call, Answer)],
    kept: &mut Vec<Entry<Event>>,
) {
    for (call, answer) in rows {
        let command = call.command();
        let reply = answer.reply();
        check(rt, reply_of(rt, shared, end, command), reply);
        if !matches!(reply, Refused(_) | Gating | Idle) {
            kept.push(Entry { command, reply }).expect(rt, "memory");
        }
    }
}

fn check_kept(rt: &impl Abort, recorded: &Recorded<Event>, kept: &[Entry<Event>], values: &[u64]) {
    check(rt, recorded.history(), kept);
    check(rt, recorded.values().len(), values.len());
    for (value, first) in recorded.values().iter().zip(values) {
        check(rt, *value, word(*first));
    }
}

/// The one end, once a run's calls were made through it.
fn played<L: Exchange<Event>, R: Wait + Abort>(
    rt: &R,
    alloc: Global,
    shared: &mut Shared<Event, L>,
    rows: &[(Call, Answer)],
    kept: &mut Vec<Entry<Event>>,
) -> Vec<End<Event, L>> {
    let mut end = shared.end().expect(rt, "an end");
    play_rows(rt, shared, &mut end, rows, kept);
    check(rt, end.calls(), kept.len() as u64);
    vec![in alloc; end].expect(rt, "memory")
}

/// Plays a run through one end of a new lock, and gives what was behind it.
fn play_in<L: Exchange<Event>, R: Wait + Abort>(
    rt: &R,
    alloc: Global,
    blank: Blank,
    recorded: Recorded<Event>,
    rows: &[(Call, Answer)],
    kept: &mut Vec<Entry<Event>>,
) -> Recorded<Event>
    requires name { blank.name ≡ L.name }
    requires parts { blank.parts ≡ L.parts }
    requires ends { blank.parts ≡ 65 }
    requires begun { recorded.history ≡ L.begun }
{
    let mut shared = Shared::<Event, L>::new(recorded, blank);
    let ends = played(rt, alloc, &mut shared, rows, kept);
    let Ok(recorded) = finish(shared, ends) else {
        panic!(rt; "the end is back");
    };
    recorded
}

/// Plays a run over a lock of its own.
fn play(rt: &(impl Wait + Abort), alloc: Global, run: &Run) {
    let mut kept = Vec::new(alloc);
    let recorded = opened(rt, alloc, run.shape, run.size, run.mode, run.limit);
    let blank = Blank::new(65);
    let recorded = play_in::<Brand, _>(rt, alloc, blank, recorded, run.rows, &mut kept);
    check_kept(rt, &recorded, kept.as_slice(), run.values);
}

#[test]
fn worked_rows(rt: HostRuntime) {
    for run in &RUNS {
        play(&rt, rt.alloc(), run);
    }
}
