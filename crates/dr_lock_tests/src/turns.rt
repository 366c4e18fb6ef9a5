//! Turns of a processor whose buffer has room for two of three events, a turn in place, and events that are not copied.

use crate::checks::check;
use crate::graphs::{Shape, graph};
use crate::histories::word;
use dr_core::{Core, processor_turn};
use dr_meaning::{
    ByValue, Claimed, Handler, InPlaceHandler, MAX_LIMIT, Mode, Polled, show_in_place,
};
use dr_seq::{Event, Size};
use std::alloc::Global;
use std::process::Abort;

/// What a handler was shown: the first word of an event, its sequence, and whether it was marked as the last one.
type Showing = (u64, u64, bool);

/// The answer of each turn, how often the handler was called by then, and how many events are completed.
const TURNS: [(Polled, usize, u64); 3] = [
    (
        Polled::Batch {
            first: 0,
            count: 2,
            end: false,
        },
        2,
        2,
    ),
    (
        Polled::Batch {
            first: 2,
            count: 1,
            end: true,
        },
        3,
        3,
    ),
    (Polled::Idle, 3, 3),
];

const SHOWN: [Showing; 3] = [(4, 0, false), (5, 1, false), (6, 2, true)];

/// Keeps what it is shown, and how often it is called.
#[derive(Drop)]
struct Keeper {
    shown: [Showing; 3],
    calls: usize,
}

impl Handler<Event> for Keeper {
    fn on_event(&mut self, event: Event, s: u64, end: bool) {
        if self.calls < 3 {
            self.shown[self.calls] = (event.first, s, end);
        }
        self.calls = self.calls.wrapping_add(1);
    }
}

fn send_three(rt: &impl Abort, core: &mut Core<Event>) {
    check(rt, core.claim(0, 3), Ok(Claimed { lo: 0, hi: 2 }));
    for s in 0..3 {
        check(rt, core.write(0, s, word(4 + s)), Ok(()));
    }
    check(rt, core.publish(0, 0, 2), Ok(()));
}

fn check_completed(rt: &impl Abort, core: &Core<Event>, wanted: u64) {
    for h in 0..core.graph().len() {
        check(rt, core.completed(h), wanted);
    }
}

fn take_turns(rt: &impl Abort, core: &mut Core<Event>, keeper: &mut Keeper) {
    let mut buf = [Event::NONE; 2];
    for (answer, calls, completed) in &TURNS {
        check(rt, processor_turn(core, 0, keeper, &mut buf), Ok(*answer));
        check(rt, keeper.calls, *calls);
        check_completed(rt, core, *completed);
    }
}

fn opened(rt: &impl Abort, alloc: Global) -> Core<Event> {
    let graph = graph(rt, alloc, Shape::Alone);
    let size = Size::new(4).expect(rt, "a size");
    let opened = Core::open(alloc, graph, size, Mode::Single, MAX_LIMIT, Event::NONE);
    opened.expect(rt, "a core")
}

/// One that was shown nothing yet.
fn new_keeper() -> Keeper {
    Keeper {
        shown: [(0, 0, false); 3],
        calls: 0,
    }
}

#[test]
fn turns_with_a_buffer_of_two(rt: HostRuntime) {
    let mut core = opened(&rt, rt.alloc());
    let mut keeper = new_keeper();
    send_three(&rt, &mut core);
    take_turns(&rt, &mut core, &mut keeper);
    check(&rt, keeper.shown, SHOWN);
}

#[test]
fn a_turn_in_place_of_a_handler_by_value(rt: HostRuntime) {
    let mut core = opened(&rt, rt.alloc());
    let mut by_value = ByValue {
        handler: new_keeper(),
    };
    send_three(&rt, &mut core);
    let answer = Polled::Batch {
        first: 0,
        count: 3,
        end: true,
    };
    check(&rt, core.turn_in_place(0, &mut by_value), Ok(answer));
    check(&rt, by_value.handler.shown, SHOWN);
    check(&rt, by_value.handler.calls, 3);
    check_completed(&rt, &core, 3);
}

/// Counts events of any type, and their marks.
#[derive(Drop)]
struct Count {
    shown: u64,
    marks: u64,
}

impl<E> InPlaceHandler<E> for Count {
    fn on_event_in_place(&mut self, _event: &E, _s: u64, end: bool) {
        self.shown = self.shown.wrapping_add(1);
        self.marks = self.marks.wrapping_add(u64::from(end));
    }
}

#[test]
fn events_that_own_memory_are_shown_in_place(rt: HostRuntime) {
    let alloc = rt.alloc();
    let events = vec![in alloc; Vec::<u64>::new(alloc), Vec::new(alloc)].expect(&rt, "memory");
    let mut count = Count { shown: 0, marks: 0 };
    show_in_place(&mut count, events.as_slice(), 5, true);
    check(&rt, (count.shown, count.marks), (2, 1));
}
