//! Runs: calls of all ends of a ring with their answers, and what the ends tell when they are brought together.

use crate::calls::{Answer, Call, Row};
use crate::checks::check_at;
use crate::counted::Counted;
use crate::ends::AllEnds;
use crate::graphs::Shape;
use dr_meaning::MAX_LIMIT;
use dr_plain_senders::Values;
use dr_seq::Event;
use std::process::Abort;

/// A run, and what its ends tell when they are brought together.
#[derive(Drop)]
pub struct Run {
    pub name: &'static str,
    pub shape: Shape,
    pub size: u64,
    pub limit: u64,
    pub senders: usize,
    pub rows: &'static [Row],
    pub claimed: u64,
    pub published: u64,
    pub halted: bool,
    /// How many events each handler took, and how many it completed.
    pub handlers: &'static [(u64, u64)],
    /// The numbers of the events that come back from four cells: at first they are 100 and more.
    pub lying: [u64; 4],
}

/// A run in which nobody calls, over a ring of four slots with one sender and one handler.
pub const NO_CALLS: Run = Run {
    name: "no calls",
    shape: Shape::Alone,
    size: 4,
    limit: MAX_LIMIT,
    senders: 1,
    rows: &[],
    claimed: 0,
    published: 0,
    halted: false,
    handlers: &[(0, 0)],
    lying: [100, 101, 102, 103],
};

/// What the ends of a ring told.
#[derive(Drop)]
pub struct Came {
    pub claimed: u64,
    /// Where the ring has one sender.
    pub published: Option<u64>,
    /// Where it has several.
    pub halted: Option<bool>,
    /// How many handlers there are, three at most, and how many events each took and completed.
    pub many: usize,
    pub handlers: [(u64, u64); 3],
    /// The events of the cells, where they are counted.
    pub events: Option<Values<Counted>>,
}

/// What the ends of a ring are to tell.
#[derive(Clone, Copy)]
pub struct Wanted<'a> {
    pub claimed: u64,
    pub published: u64,
    pub halted: bool,
    pub handlers: &'a [(u64, u64)],
}

pub fn check_came(rt: &impl Abort, came: &Came, wanted: Wanted<'_>, name: &'static str) {
    check_at(rt, came.claimed, wanted.claimed, name);
    let published = came.published.unwrap_or(wanted.published);
    check_at(rt, published, wanted.published, name);
    check_at(
        rt,
        came.halted.unwrap_or(wanted.halted),
        wanted.halted,
        name,
    );
    assert!(rt; came.many <= 3);
    check_at(rt, &came.handlers[..came.many], wanted.handlers, name);
}

/// Makes a call, which is to have this answer.
pub fn ask<E: AllEnds>(
    rt: &impl Abort,
    ends: &mut E,
    who: usize,
    call: Call,
    answer: Answer,
    place: (u64, &'static str),
)
    ensures { E.are_all ends.old → E.are_all ends.new }
{
    let mut out = [Event::NONE; 8];
    let given = ends.answer(rt, who, call, &mut out);
    check_at(rt, given, answer.reply(), place);
    let events = answer.events();
    assert!(rt; events.len() <= 8);
    check_at(rt, &out[..events.len()], events, place);
    ends.check_alive(rt);
}

/// Makes the calls of some rows.
pub fn play<E: AllEnds>(rt: &impl Abort, ends: &mut E, rows: &[Row], name: &'static str)
    ensures { E.are_all ends.old → E.are_all ends.new }
{
    let mut row = 0u64;
    for (who, call, answer) in rows {
        ask(rt, ends, *who, *call, *answer, (row, name));
        row = row.wrapping_add(1);
    }
}

/// Makes the calls of a run, and brings its ends together.
pub fn check_run<E: AllEnds>(rt: &impl Abort, mut ends: E, run: &Run) -> Came
    requires { E.are_all ends }
{
    play(rt, &mut ends, run.rows, run.name);
    let came = ends.finish();
    let wanted = Wanted {
        claimed: run.claimed,
        published: run.published,
        halted: run.halted,
        handlers: run.handlers,
    };
    check_came(rt, &came, wanted, run.name);
    came
}
