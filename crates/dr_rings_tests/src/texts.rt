//! Events that are texts, moved through any ring over plain memory: none is lost, and none is there twice.

ghost use Rattle.std.specs.Iterator.{IsFinite};

use crate::checks::{check, check_at};
use crate::ends::{Sends, Shows};
use dr_meaning::Polled::{Batch, Drained};
use dr_meaning::{Claimed, Refusal};
use std::alloc::Global;
use std::process::Abort;

/// A receiver of texts that shows all that it has in hand.
pub trait ShowsTexts {
    /// Whether they are those of the sequences from `lo` up to `hi`.
    fn are_texts(&self, alloc: Global, lo: u64, hi: u64) -> bool;
}

/// Whether texts are those of the sequences from `lo` up to `hi`.
pub fn are_texts<'a, I: Iterator<Item = &'a String> + Drop>(
    texts: I,
    alloc: Global,
    lo: u64,
    hi: u64,
) -> bool
    requires can { I.can_next texts }
    requires ends { IsFinite (I.remaining texts) }
{
    let mut next = lo;
    for text in texts {
        let Ok(wanted) = format!(in alloc; "event {next}") else {
            return false;
        };
        if text.as_str() != wanted.as_str() {
            return false;
        }
        next = next.wrapping_add(1);
    }
    next == hi
}

/// So many texts, which are empty.
pub fn empty_texts(rt: &impl Abort, alloc: Global, count: u64) -> Vec<String> {
    let mut texts = Vec::new(alloc);
    for _ in 0..count {
        texts.push(String::new(alloc)).expect(rt, "memory");
    }
    texts
}

/// The text of a sequence.
pub fn text_of(rt: &impl Abort, alloc: Global, s: u64) -> String {
    format!(in alloc; "event {s}").expect(rt, "memory")
}

// A text is moved into the cell of its sequence, or put in place of what lies there.
fn write(rt: &impl Abort, alloc: Global, sender: &mut impl Sends<String>, s: u64) {
    let text = text_of(rt, alloc, s);
    let written = if s % 2 == 0 {
        sender.write(s, text)
    } else {
        sender.update(s, move |lying| *lying = text)
    };
    check_at(rt, written, Ok(()), s);
}

/// A sender sends three texts, and of four cells there is no room for two more.
pub fn send_three(rt: &impl Abort, alloc: Global, sender: &mut impl Sends<String>, lo: u64) {
    let hi = lo.wrapping_add(2);
    check(rt, sender.claim(3), Ok(Claimed { lo, hi }));
    for k in 0..3 {
        write(rt, alloc, sender, lo.wrapping_add(k));
    }
    check_at(rt, sender.publish(lo, hi), Ok(()), lo);
    check_at(rt, sender.claim(2), Err(Refusal::NoRoom), lo);
}

// A receiver shows a text under its sequence.
fn check_text(rt: &impl Abort, alloc: Global, receiver: &impl Shows<String>, s: u64) {
    let wanted = text_of(rt, alloc, s);
    check(rt, receiver.event(s), Some(&wanted));
}

// The texts in a receiver's hand are those of the sequences from `lo` up to `hi`.
fn check_texts<R: Shows<String> + ShowsTexts>(
    rt: &impl Abort,
    alloc: Global,
    receiver: &R,
    lo: u64,
    hi: u64,
) {
    check_at(rt, receiver.are_texts(alloc, lo, hi), true, lo);
    for s in lo..hi {
        check_text(rt, alloc, receiver, s);
    }
    check(rt, receiver.event(hi), None);
}

// A receiver takes three texts, in polls with room for so many.
fn take_three(rt: &impl Abort, receiver: &mut impl Shows<String>, lo: u64, rooms: &[u64]) {
    let upto = lo.wrapping_add(3);
    let mut first = lo;
    for room in rooms {
        let count = upto.wrapping_sub(first).min(*room);
        let next = first.wrapping_add(count);
        let end = next == upto;
        check_at(
            rt,
            receiver.poll(*room),
            Ok(Batch { first, count, end }),
            lo,
        );
        first = next;
    }
}

// It reads them where they lie, and completes them.
fn receive_three<R: Shows<String> + ShowsTexts>(
    rt: &impl Abort,
    alloc: Global,
    receiver: &mut R,
    lo: u64,
    rooms: &[u64],
) {
    let upto = lo.wrapping_add(3);
    take_three(rt, receiver, lo, rooms);
    check_texts(rt, alloc, receiver, lo, upto);
    check_at(rt, receiver.complete(upto), Ok(()), lo);
    check(rt, receiver.event(lo), None);
}

/// Each receiver takes three texts in polls with room for so many, reads them where they lie, and completes them.
pub fn receive_three_each<R: Shows<String> + ShowsTexts>(
    rt: &impl Abort,
    alloc: Global,
    receivers: &mut [R],
    lo: u64,
    rooms: &[u64],
) {
    for receiver in receivers {
        receive_three(rt, alloc, receiver, lo, rooms);
    }
}

/// Each receiver is told that the ring drained.
pub fn check_drained<R: Shows<String>>(rt: &impl Abort, receivers: &mut [R]) {
    for receiver in receivers {
        check(rt, receiver.poll(1), Ok(Drained));
    }
}
