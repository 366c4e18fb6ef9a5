//! Events that own memory come back once each when the ends are brought together, whatever these have in hand.

use crate::calls::Answer::Says;
use crate::calls::Call;
use crate::checks::check_at;
use crate::counted::use_some;
use crate::ends::AllEnds;
use crate::playing::{Came, Wanted, ask, check_came};
use dr_meaning::Reply;
use dr_seq::Event;
use std::process::Abort;
use std::sync::Arc;

/// How many sequences a sender claims at once, how many of them, from the first on, it writes, how many after these it changes
/// where they lie, and how many, from the first on, it publishes.
pub type Sent = (u64, u64, u64, u64);

/// How many events a handler takes, and how many it completes.
pub type Received = (u64, u64);

/// How far the ends came in a ring of four cells with two handlers.
#[derive(Drop)]
pub struct Moment {
    pub name: &'static str,
    /// How often each cell was claimed and its event completed before.
    pub rounds: u64,
    /// What the senders did since, the first one first.
    pub sent: &'static [Sent],
    /// What the handlers did since.
    pub handlers: [Received; 2],
    pub halted: bool,
    /// The numbers of the events in the cells: that of a sequence is its own and one more, and at first it is 100 and more. Where
    /// an event is changed it has a thousand more than lay there.
    pub lying: [u64; 4],
}

/// A new ring of which nobody claimed anything.
pub const UNTOUCHED: Moment = Moment {
    name: "nothing was claimed",
    rounds: 0,
    sent: &[],
    handlers: [(0, 0), (0, 0)],
    halted: false,
    lying: [100, 101, 102, 103],
};

/// A whole round, by two senders: each other round from the first on, and those between.
const ROUND: [Sent; 2] = [(1, 1, 0, 1), (3, 3, 0, 3)];

const ROUND_BETWEEN: [Sent; 2] = [(3, 3, 0, 3), (1, 1, 0, 1)];

// The last of so many sequences.
fn last_of(lo: u64, count: u64) -> u64 {
    lo.wrapping_add(count).wrapping_sub(1)
}

// A call that is made or not.
fn ask_where<E: AllEnds>(
    rt: &impl Abort,
    ends: &mut E,
    made: bool,
    who: usize,
    call: Call,
    reply: Reply,
    place: (u64, &'static str),
)
    ensures { E.are_all ends.old → E.are_all ends.new }
{
    if made {
        ask(rt, ends, who, call, Says(reply), place);
    }
}

// So many events are written, from one sequence on.
fn write<E: AllEnds>(
    rt: &impl Abort,
    ends: &mut E,
    who: usize,
    lo: u64,
    count: u64,
    name: &'static str,
)
    ensures { E.are_all ends.old → E.are_all ends.new }
{
    for s in lo..lo.wrapping_add(count) {
        let first = s.wrapping_add(1);
        let call = Call::Write(s, Event { first, second: 0 });
        ask(rt, ends, who, call, Says(Reply::Written), (s, name));
    }
}

// So many events are changed where they lie, from one sequence on.
fn change<E: AllEnds>(
    rt: &impl Abort,
    ends: &mut E,
    who: usize,
    lo: u64,
    count: u64,
    name: &'static str,
)
    ensures { E.are_all ends.old → E.are_all ends.new }
{
    for s in lo..lo.wrapping_add(count) {
        let answer = Says(Reply::Written);
        ask(rt, ends, who, Call::Change(s), answer, (s, name));
    }
}

// A sender claims the sequences from `lo` on.
fn send<E: AllEnds>(
    rt: &impl Abort,
    ends: &mut E,
    who: usize,
    lo: u64,
    sent: Sent,
    name: &'static str,
)
    ensures { E.are_all ends.old → E.are_all ends.new }
{
    let (claimed, written, changed, published) = sent;
    let reply = Reply::Claimed {
        lo,
        hi: last_of(lo, claimed),
    };
    let call = Call::Claim(claimed);
    ask_where(rt, ends, claimed > 0, who, call, reply, (lo, name));
    write(rt, ends, who, lo, written, name);
    change(rt, ends, who, lo.wrapping_add(written), changed, name);
    let call = Call::Publish(lo, last_of(lo, published));
    let reply = Reply::Published;
    ask_where(rt, ends, published > 0, who, call, reply, (lo, name));
}

fn send_each<E: AllEnds>(rt: &impl Abort, ends: &mut E, lo: u64, sent: &[Sent], name: &'static str)
    ensures { E.are_all ends.old → E.are_all ends.new }
{
    let mut next = lo;
    for (who, one) in sent.iter().enumerate() {
        send(rt, ends, who, next, *one, name);
        next = next.wrapping_add(one.0);
    }
}

// From the sequence `lo` on. Without room a poll is refused, and takes nothing.
fn receive<E: AllEnds>(
    rt: &impl Abort,
    ends: &mut E,
    who: usize,
    lo: u64,
    received: Received,
    name: &'static str,
)
    ensures { E.are_all ends.old → E.are_all ends.new }
{
    let (taken, completed) = received;
    let mut out = [Event::NONE; 8];
    let _given = ends.answer(rt, who, Call::Poll(taken), &mut out);
    let call = Call::Complete(lo.wrapping_add(completed));
    let answer = Says(Reply::Completed);
    ask(rt, ends, who, call, answer, (lo, name));
}

// From the sequence `lo` on, all senders send, and both handlers receive.
fn go<E: AllEnds>(
    rt: &impl Abort,
    ends: &mut E,
    lo: u64,
    sent: &[Sent],
    handlers: &[Received; 2],
    name: &'static str,
)
    ensures { E.are_all ends.old → E.are_all ends.new }
{
    send_each(rt, ends, lo, sent, name);
    receive(rt, ends, 0, lo, handlers[0], name);
    receive(rt, ends, 1, lo, handlers[1], name);
}

// Answers how many sequences came before.
fn go_round<E: AllEnds>(rt: &impl Abort, ends: &mut E, rounds: u64, name: &'static str) -> u64
    ensures { E.are_all ends.old → E.are_all ends.new }
{
    let mut lo = 0u64;
    for k in 0..rounds {
        let sent = if k % 2 == 0 { &ROUND } else { &ROUND_BETWEEN };
        go(rt, ends, lo, sent, &[(4, 4), (4, 4)], name);
        lo = lo.wrapping_add(4);
    }
    lo
}

// Answers how many sequences came before.
fn come_to<E: AllEnds>(rt: &impl Abort, ends: &mut E, moment: &Moment) -> u64
    ensures { E.are_all ends.old → E.are_all ends.new }
{
    let lo = go_round(rt, ends, moment.rounds, moment.name);
    go(rt, ends, lo, moment.sent, &moment.handlers, moment.name);
    let reply = Reply::Halting;
    let place = (lo, moment.name);
    ask_where(rt, ends, moment.halted, 0, Call::Halt, reply, place);
    lo
}

// How many sequences were claimed and published, where so many were before.
fn sums(before: u64, sent: &[Sent]) -> (u64, u64) {
    let mut claimed = before;
    let mut published = before;
    for one in sent {
        claimed = claimed.wrapping_add(one.0);
        published = published.wrapping_add(one.3);
    }
    (claimed, published)
}

fn check_told(rt: &impl Abort, came: &Came, before: u64, moment: &Moment) {
    let (claimed, published) = sums(before, moment.sent);
    let [(taken, completed), (second_taken, second_completed)] = moment.handlers;
    let handlers = [
        (before.wrapping_add(taken), before.wrapping_add(completed)),
        (
            before.wrapping_add(second_taken),
            before.wrapping_add(second_completed),
        ),
    ];
    let wanted = Wanted {
        claimed,
        published,
        halted: moment.halted,
        handlers: &handlers,
    };
    check_came(rt, came, wanted, moment.name);
}

fn end<E: AllEnds>(rt: &impl Abort, mut ends: E, moment: &Moment) -> Came
    requires { E.are_all ends }
{
    let before = come_to(rt, &mut ends, moment);
    let came = ends.finish();
    check_told(rt, &came, before, moment);
    came
}

/// Ends in a moment, and uses so many of the events: none is there after that.
pub fn check_moment<E: AllEnds>(
    rt: &impl Abort,
    ends: E,
    alive: &Arc<u64>,
    moment: &Moment,
    count: usize,
)
    requires { E.are_all ends }
{
    let came = end(rt, ends, moment);
    let events = came.events.expect(rt, "events");
    use_some(rt, alive, events, &moment.lying, count, moment.name);
    check_at(rt, Arc::strong_count(alive), 1, moment.name);
}
