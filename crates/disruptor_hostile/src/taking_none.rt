//! Calls that never take memory. Each case says `open`, makes every call of what it opened, and then
//! asks for memory once, and tells whether it was given any.

use crate::core_calls::{FIVE, FOUR, THREE, TWO, opened, word};
use crate::fault::Fault;
use crate::recording::{COMMANDS, call};
use crate::ring_calls::tell_polls;
use crate::telling::Lines;
use dr_core::{Core, processor_turn};
use dr_lock::Recorded;
use dr_meaning::Command::{Claim, Complete, Halt, Poll, Publish, Retire, Write};
use dr_meaning::{ByValue, Command, Handler, InPlaceHandler, Mode};
use dr_ring::{Halter, Receiver, Sender};
use dr_seq::Event;
use std::alloc::Global;

/// Counts the events that it is shown.
#[derive(Clone, Copy, Debug)]
struct Count {
    shown: u64,
}

impl Handler<Event> for Count {
    ghost use Rattle.std.specs.Prelude.{◌≡◌, ◌+◌, ◌%◌, ◌^◌};

    ghost goes = { λ old event s end new. new.shown ≡ (old.shown + 1) % 2 ^ 64 };

    fn on_event(&mut self, _event: Event, _s: u64, _end: bool) {
        self.shown = self.shown.wrapping_add(1);
    }
}

/// Adds the first words of the events that it is shown.
#[derive(Clone, Copy, Debug)]
struct Sum {
    total: u64,
}

impl InPlaceHandler<Event> for Sum {
    ghost use Rattle.std.specs.Prelude.{◌≡◌, ◌+◌, ◌%◌, ◌^◌};

    ghost goes = { λ old event s end new. new.total ≡ (old.total + event.first) % 2 ^ 64 };

    fn on_event_in_place(&mut self, event: &Event, _s: u64, _end: bool) {
        self.total = self.total.wrapping_add(event.first);
    }
}

/// Asks for memory, and tells whether there was any.
pub fn tell_memory<R: Print>(out: &Lines<R>, alloc: Global) {
    out.words(match Vec::<u64>::with_capacity(alloc, 1) {
        Ok(_) => "memory",
        Err(_) => "no-memory",
    });
}

/// Makes a call of a core, and tells its answer. A poll has room for four events.
fn tell_call<R: Print>(out: &Lines<R>, core: &mut Core<Event>, command: Command<Event>) {
    let mut events = [Event::NONE; 4];
    match command {
        Claim { p, n } => out.value(core.claim(p, n)),
        Write { p, s, v } => out.value(core.write(p, s, v)),
        Publish { p, lo, hi } => out.value(core.publish(p, lo, hi)),
        Poll { h, max: _ } => out.value(core.poll_into(h, &mut events)),
        Complete { h, upto } => out.value(core.complete(h, upto)),
        Retire { h } => out.value(core.retire(h)),
        Halt => core.halt(),
    }
}

fn tell_calls<R: Print>(out: &Lines<R>, core: &mut Core<Event>, commands: &[Command<Event>]) {
    for command in commands {
        tell_call(out, core, *command);
    }
}

const SENDING: [Command<Event>; 8] = [
    Claim { p: 0, n: 2 },
    Claim { p: 1, n: 3 },
    Claim { p: 2, n: 1 },
    Write {
        p: 0,
        s: 0,
        v: FOUR,
    },
    Write {
        p: 1,
        s: 1,
        v: FIVE,
    },
    Write {
        p: 0,
        s: 1,
        v: FIVE,
    },
    Publish { p: 0, lo: 0, hi: 1 },
    Publish { p: 0, lo: 0, hi: 1 },
];

const RECEIVING: [Command<Event>; 4] = [
    Poll { h: 0, max: 4 },
    Poll { h: 2, max: 4 },
    Complete { h: 0, upto: 2 },
    Complete { h: 0, upto: 3 },
];

const SENDING_MORE: [Command<Event>; 6] = [
    Complete { h: 2, upto: 2 },
    Claim { p: 0, n: 3 },
    Write { p: 0, s: 2, v: TWO },
    Write {
        p: 0,
        s: 3,
        v: THREE,
    },
    Write {
        p: 0,
        s: 4,
        v: FOUR,
    },
    Publish { p: 0, lo: 2, hi: 4 },
];

const ENDING: [Command<Event>; 5] = [
    Retire { h: 0 },
    Retire { h: 2 },
    Halt,
    Claim { p: 0, n: 1 },
    Poll { h: 1, max: 4 },
];

fn tell_turn<R: Print>(out: &Lines<R>, core: &mut Core<Event>) {
    let mut events = [Event::NONE; 4];
    let mut count = Count { shown: 0 };
    out.value(processor_turn(core, 1, &mut count, &mut events));
    out.value(count);
    out.value(core.execute(Poll { h: 2, max: 4 }, &mut events));
    out.value(events);
}

/// Turns of all handlers over three events that lie in two pieces, of one that took them all, and of one that the graph lacks.
fn tell_turns_in_place<R: Print>(out: &Lines<R>, core: &mut Core<Event>) {
    let mut sum = Sum { total: 0 };
    for h in 0..3 {
        out.value(core.turn_in_place(h, &mut sum));
        out.value(sum);
    }
    out.value(core.turn_in_place(0, &mut sum));
    out.value(core.turn_in_place(3, &mut sum));
}

/// Turns of one that has to go on, and of one that retired.
fn tell_last_turns<R: Print>(out: &Lines<R>, core: &mut Core<Event>) {
    let mut count = ByValue {
        handler: Count { shown: 0 },
    };
    out.value(core.turn_in_place(1, &mut count));
    out.value(core.turn_in_place(2, &mut count));
}

const COUNTS: [&str; 4] = ["", " ", " ", ""];

/// The counts of a core and of its handlers.
fn tell_counts<R: Print>(out: &Lines<R>, core: &Core<Event>) {
    out.claims(core.next(), core.size().get());
    out.between(core.front(), " in front of ", core.producers());
    out.value(core.is_halted());
    for h in 0..core.graph().len() {
        out.three(
            &COUNTS,
            core.taken(h),
            core.completed(h),
            core.is_retired(h),
        );
    }
    out.value(core.graph().position("c"));
}

fn tell_calls_of_core<R: Print>(out: &Lines<R>, core: &mut Core<Event>) {
    tell_calls(out, core, &SENDING);
    out.value(core.ready(0));
    tell_calls(out, core, &RECEIVING);
    tell_turn(out, core);
    tell_calls(out, core, &SENDING_MORE);
    tell_turns_in_place(out, core);
    tell_calls(out, core, &ENDING);
    tell_last_turns(out, core);
    tell_counts(out, core);
}

fn tell_cores<R: Print>(
    out: &Lines<R>,
    alloc: Global,
    of_two: &mut Core<Event>,
    of_one: &mut Core<Event>,
) {
    out.words("open");
    tell_calls_of_core(out, of_two);
    tell_calls_of_core(out, of_one);
    tell_memory(out, alloc);
}

/// Every call of a core of two producers, and of one of a single producer.
pub fn tell_core_beside<R: Print>(out: &Lines<R>, alloc: Global, of_two: &mut Core<Event>) {
    match opened(alloc, true, 4, Mode::Single) {
        Ok(mut of_one) => tell_cores(out, alloc, of_two, &mut of_one),
        Err(fault) => out.end(fault),
    }
}

/// More events than a poll copies one by one.
pub const MANY: usize = 32;

fn tell_many_sent<R: Print>(out: &Lines<R>, core: &mut Core<Event>) {
    out.value(core.claim(0, MANY as u64));
    for s in 0..MANY as u64 {
        out.done(core.write(0, s, word(s)));
    }
    out.value(core.publish(0, 0, MANY as u64 - 1));
}

fn tell_many_taken<R: Print>(out: &Lines<R>, core: &mut Core<Event>) {
    let mut events = [Event::NONE; MANY];
    out.value(core.poll_into(0, &mut events));
    out.between(events[0], " ", events[MANY - 1]);
}

/// A poll of so many events that they are not copied one by one, by a single handler.
pub fn tell_many<R: Print>(out: &Lines<R>, alloc: Global, core: &mut Core<Event>) {
    out.words("open");
    tell_many_sent(out, core);
    tell_many_taken(out, core);
    tell_memory(out, alloc);
}

fn tell_sender<R: Print>(out: &Lines<R>, sender: &mut Sender) {
    out.value(sender.try_claim(2));
    out.value(sender.try_claim(3));
    out.value(sender.close());
    out.value(sender.write(0, word(4)));
    out.value(sender.write(1, word(5)));
    out.value(sender.write(2, word(6)));
    out.value(sender.publish(1, 1));
    out.value(sender.publish(0, 1));
    out.about("looked", sender.looks() > 0);
}

fn tell_receiver<R: Print>(out: &Lines<R>, receiver: &mut Receiver) {
    let mut events = [Event::NONE; 4];
    out.value(receiver.poll_into(&mut []));
    out.value(receiver.poll_into(&mut events[..1]));
    out.value(receiver.poll_into(&mut events));
    out.value(receiver.complete(3));
    out.value(receiver.complete(2));
    out.value(receiver.poll_into(&mut events));
    out.between(events, " looked ", receiver.looks() > 0);
}

/// Every call of a ring's ends.
pub fn tell_every_call<R: Print>(
    out: &Lines<R>,
    alloc: Global,
    sender: &mut Sender,
    receivers: &mut [Receiver],
    halter: &mut Halter,
) {
    out.words("open");
    tell_sender(out, sender);
    for receiver in receivers.iter_mut() {
        tell_receiver(out, receiver);
    }
    halter.halt();
    out.value(sender.try_claim(1));
    out.value(sender.close());
    tell_polls(out, receivers);
    tell_memory(out, alloc);
}

fn tell_kept_call<R: Print>(
    out: &Lines<R>,
    recorded: &mut Recorded<Event>,
    command: Command<Event>,
) {
    match call(recorded, command) {
        Ok(reply) => out.value(reply),
        Err(fault) => out.end(fault),
    }
}

/// The calls of a history that has room for all that it is to keep.
pub fn tell_kept<R: Print>(out: &Lines<R>, alloc: Global, recorded: &mut Recorded<Event>) {
    out.words("open");
    for command in &COMMANDS {
        tell_kept_call(out, recorded, *command);
    }
    out.between(recorded.history().len(), " ", recorded.values());
    tell_memory(out, alloc);
}
