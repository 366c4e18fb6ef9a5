//! Events that own memory: none is lost, and none is there twice.

use super::{Ends, open};
use crate::checks::{check, check_at};
use crate::graphs::Shape;
use crate::texts::{check_drained, empty_texts, receive_three_each, send_three, text_of};
use dr_meaning::Polled::{Batch, Drained};
use dr_meaning::{Claimed, MAX_LIMIT, Refusal};
use dr_plain::{Receiver, Sender};
use dr_seq::Size;
use std::alloc::Global;
use std::process::Abort;
use std::sync::Arc;

// A ring of so many texts, which are empty at first.
pub fn open_texts(rt: &impl Abort, alloc: Global, shape: Shape, slots: u64) -> Ends<String> {
    let size = Size::new(slots).expect(rt, "a size");
    let texts = empty_texts(rt, alloc, slots);
    assert!(rt; texts.len() as u64 == size.get());
    open(rt, alloc, shape, size, MAX_LIMIT, texts)
}

// Twenty times three texts through all receivers.
fn send_turns(rt: &impl Abort, alloc: Global, ends: &mut Ends<String>) {
    for turn in 0..20u64 {
        let lo = turn.wrapping_mul(3);
        send_three(rt, alloc, &mut ends.sender, lo);
        receive_three_each(rt, alloc, ends.receivers.as_mut_slice(), lo, &[8]);
    }
}

#[test]
fn texts_through_a_diamond(rt: HostRuntime) {
    let mut ends = open_texts(&rt, rt.alloc(), Shape::Diamond, 4);
    send_turns(&rt, rt.alloc(), &mut ends);
    check(&rt, ends.sender.close(), Ok(()));
    check_drained(&rt, ends.receivers.as_mut_slice());
}

fn again(rt: &impl Abort, number: &Arc<u64>) -> Arc<u64> {
    Arc::try_clone(number).expect(rt, "memory")
}

fn check_counts(rt: &impl Abort, first: &Arc<u64>, second: &Arc<u64>, s: u64) {
    let (left, written) = if s == 0 { (2, 2) } else { (1, 3) };
    check_at(rt, Arc::strong_count(first), left, s);
    check_at(rt, Arc::strong_count(second), written, s);
}

fn receive_one(rt: &impl Abort, receiver: &mut Receiver<Arc<u64>>, s: u64) {
    let batch = Batch {
        first: s,
        count: 1,
        end: true,
    };
    check(rt, receiver.poll(1), Ok(batch));
    check(rt, receiver.complete(s.wrapping_add(1)), Ok(()));
}

// One number goes into a cell of a ring of two, twice, and is received. `first` began in the cells.
fn send_one(
    rt: &impl Abort,
    ends: &mut Ends<Arc<u64>>,
    first: &Arc<u64>,
    second: &Arc<u64>,
    s: u64,
) {
    let sender = &mut ends.sender;
    check(rt, sender.try_claim(1), Ok(Claimed { lo: s, hi: s }));
    check(rt, sender.write(s, again(rt, second)), Ok(()));
    check(rt, sender.write(s, again(rt, second)), Ok(()));
    check(rt, sender.publish(s, s), Ok(()));
    check_counts(rt, first, second, s);
    assert!(rt; ends.receivers.len() == 1);
    receive_one(rt, &mut ends.receivers[0], s);
}

// A ring of two of one number.
fn open_numbers(rt: &impl Abort, alloc: Global, number: &Arc<u64>) -> Ends<Arc<u64>> {
    let size = Size::new(2).expect(rt, "a size");
    let pair = vec![in alloc; again(rt, number), again(rt, number)].expect(rt, "memory");
    open(rt, alloc, Shape::Alone, size, MAX_LIMIT, pair)
}

fn number(rt: &impl Abort, alloc: Global, number: u64) -> Arc<u64> {
    Arc::new(alloc, number).expect(rt, "memory")
}

#[test]
fn what_is_written_over_is_dropped_once(rt: HostRuntime) {
    let first = number(&rt, rt.alloc(), 0);
    let second = number(&rt, rt.alloc(), 1);
    let mut ends = open_numbers(&rt, rt.alloc(), &first);
    for s in 0..6u64 {
        send_one(&rt, &mut ends, &first, &second, s);
    }
}

// A receiver that took two texts is gone, and completes them never.
fn leave(rt: &impl Abort, ends: &mut Ends<String>) {
    if let Some(mut leaves) = ends.receivers.pop() {
        assert!(rt; matches!(leaves.poll(2), Ok(Batch { count: 2, .. })));
    }
    assert!(rt; ends.receivers.len() == 1);
}

fn send_last(rt: &impl Abort, alloc: Global, ends: &mut Ends<String>) {
    check(rt, ends.sender.try_claim(2), Err(Refusal::NoRoom));
    check(rt, ends.sender.try_claim(1), Ok(Claimed { lo: 3, hi: 3 }));
    ends.halter.halt();
    check(rt, ends.sender.try_claim(1), Err(Refusal::Halted));
    check(rt, ends.sender.close(), Err(Refusal::OpenClaim));
    check(rt, ends.sender.write(3, text_of(rt, alloc, 3)), Ok(()));
    check(rt, ends.sender.publish(3, 3), Ok(()));
    check(rt, ends.sender.close(), Ok(()));
}

fn receive_last(rt: &impl Abort, receiver: &mut Receiver<String>) {
    let batch = Batch {
        first: 3,
        count: 1,
        end: true,
    };
    check(rt, receiver.poll(8), Ok(batch));
    check(
        rt,
        receiver.event(3).map(|text| text.as_str()),
        Some("event 3"),
    );
    check(rt, receiver.complete(4), Ok(()));
    check(rt, receiver.poll(8), Ok(Drained));
}

#[test]
fn a_receiver_that_leaves_holds_the_sender_up_alone(rt: HostRuntime) {
    let mut ends = open_texts(&rt, rt.alloc(), Shape::SideBySide, 4);
    send_three(&rt, rt.alloc(), &mut ends.sender, 0);
    leave(&rt, &mut ends);
    receive_three_each(&rt, rt.alloc(), ends.receivers.as_mut_slice(), 0, &[8]);
    send_last(&rt, rt.alloc(), &mut ends);
    for receiver in &mut ends.receivers {
        receive_last(&rt, receiver);
    }
}
