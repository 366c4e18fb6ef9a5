//! Which sequences are a sender's own, and how far it brought them.

ghost use Rattle.std.specs.Prelude.{◌≡◌, ℕ, ◌+◌, ◌-◌, ◌%◌, ◌^◌, ◌<◌, ◌≤◌, ◌==◌, ◌&&◌, nat_le, nat_lt, if◌then◌else◌, true};
ghost use Rattle.std.specs.Prelude.{IfOk, length, map, replicate, slice_index};
ghost use Rattle.dr_seq.specs.Rounds.{entry_of, is_marked, IsFront};
ghost use Rattle.dr_seq.specs.Stamped.{stamped};
ghost use Rattle.dr_plain_senders.specs.Calls.Publishing.{is_between};
ghost use Rattle.dr_plain_senders.specs.Inside.Fits.{open_count};
ghost use Rattle.dr_plain_senders.specs.Inside.Owned.{is_open as is_open_by, is_ready as is_ready_by, after_claim, after_write, after_publication};
ghost use Rattle.dr_plain_senders.specs.Inside.Owned.{OwnedFits, owned_of, claimed_by, written_by, published_by, done, wiped};

use dr_seq::Size;
use std::alloc::{AllocError, Global};
use std::marker::Model;

/// How far a sender brought the sequence that it claimed last in a slot.
#[derive(Clone, Copy)]
pub(crate) struct Mark {
    // Its round plus 1, and 0 where the sender claimed none there.
    entry: u64,
    is_written: bool,
    is_published: bool,
}

/// The sequences that a sender claimed, wrote and published, each marked in its slot. Those that are
/// not published lie within one round of the ring, so each has a slot of its own.
#[derive(Drop)]
pub(crate) struct Owned {
    marks: Vec<Mark>,
    size: Size,
    // The last claim is marked as published at once, and counted as it is used in order: from `shown`
    // up to before `end` nothing is published, and all before `filled` is written.
    shown: u64,
    filled: u64,
    end: u64,
}

impl Model for Owned {
    ghost use Rattle.dr_plain_senders.specs.Inside.Owned.{Owned as Marks, owned_of, OwnedFits};

    ghost Value = { Marks };

    ghost view = { λ o. owned_of o.marks.items o.shown o.filled o.end };

    ghost invariant = { λ o. OwnedFits o.marks.items o.size o.shown o.filled o.end };
}

// The places from `first` up to before `upto` have this mark.
fn fill(marks: &mut [Mark], first: usize, upto: usize, mark: Mark)
    requires { (first ≤ upto) × (upto ≤ length marks.old) }
    ensures { (f : Mark → ℕ) → map f marks.new ≡ stamped (λ _. f mark) (map f marks.old) first (upto - first) }
{
    for place in first..upto {
        marks[place] = mark;
    }
}

// Marks the sequences from `from` up to before `upto` as published: those of one round have their
// slots side by side, and the same mark.
fn mark_all(marks: &mut [Mark], size: Size, from: u64, upto: u64)
    requires count { length marks.old ≡ size }
    requires order { (from ≤ upto) × (upto ≤ 2 ^ 62) }
    ensures { (f : Mark → ℕ) → map f marks.new ≡ stamped (λ s. f (done (entry_of size s))) (map f marks.old) from (upto - from) }
{
    let mut next = from;
    while next < upto {
        let slot = size.slot(next);
        let stop = upto.min(next + (size.get() - slot as u64));
        let mark = Mark {
            entry: size.round(next) + 1,
            is_written: true,
            is_published: true,
        };
        fill(marks, slot, slot + (stop - next) as usize, mark);
        next = stop;
    }
}

// The sequences from `from` up to before `upto` are not published.
fn hide(marks: &mut Vec<Mark>, size: Size, from: u64, upto: u64)
    requires count { length marks.old.items ≡ size }
    requires some_slot { 0 < size }
    requires order { (from ≤ upto) × (upto ≤ 2 ^ 62) }
    ensures published { map published_by marks.new.items ≡ wiped (map published_by marks.old.items) from (upto - from) }
    ensures others { (map claimed_by marks.new.items ≡ map claimed_by marks.old.items) × (map written_by marks.new.items ≡ map written_by marks.old.items) }
{
    for sequence in from..upto {
        let slot = size.slot(sequence);
        marks[slot].is_published = false;
    }
}

// The sequences from `from` up to before `upto` are not written.
fn blank(marks: &mut Vec<Mark>, size: Size, from: u64, upto: u64)
    requires count { length marks.old.items ≡ size }
    requires some_slot { 0 < size }
    requires order { (from ≤ upto) × (upto ≤ 2 ^ 62) }
    ensures written { map written_by marks.new.items ≡ wiped (map written_by marks.old.items) from (upto - from) }
    ensures others { (map claimed_by marks.new.items ≡ map claimed_by marks.old.items) × (map published_by marks.new.items ≡ map published_by marks.old.items) }
{
    for sequence in from..upto {
        let slot = size.slot(sequence);
        marks[slot].is_written = false;
    }
}

// The marks say how far each sequence of the last claim came.
fn mark_last_claim(marks: &mut Vec<Mark>, size: Size, shown: u64, filled: u64, end: u64)
    requires { OwnedFits marks.old.items size shown filled end }
    ensures { owned_of marks.new.items end end end ≡ owned_of marks.old.items shown filled end }
{
    hide(marks, size, shown, end);
    blank(marks, size, filled, end);
}

// The mark in the slot of a sequence.
fn read(marks: &Vec<Mark>, size: Size, sequence: u64) -> Mark
    requires { (length marks.now.items ≡ size) × (0 < size) }
    ensures { (f : Mark → ℕ) → slice_index (map f marks.now.items) (sequence % length (map f marks.now.items)) ≡ f result }
{
    marks[size.slot(sequence)]
}

// What a mark of a sequence enters.
fn entry(size: Size, sequence: u64) -> u64
    requires { sequence < 2 ^ 62 }
    ensures { result ≡ entry_of size sequence }
{
    size.round(sequence) + 1
}

// Whether a sequence lies in a stretch.
fn is_in(from: u64, upto: u64, sequence: u64) -> bool
    ensures { result ≡ is_between from upto sequence }
{
    from <= sequence && sequence < upto
}

// Whether a stretch lies in another.
fn is_part(from: u64, upto: u64, first: u64, end: u64) -> bool
    ensures { result ≡ (nat_le from first && nat_le end upto) }
{
    from <= first && end <= upto
}

// Whether a sequence is the first of a stretch.
fn is_first(from: u64, upto: u64, sequence: u64) -> bool
    ensures { result ≡ ((sequence == from) && nat_lt from upto) }
{
    sequence == from && from < upto
}

// Whether a stretch is the beginning of another.
fn begins(from: u64, upto: u64, first: u64, end: u64) -> bool
    ensures { result ≡ ((first == from) && nat_le end upto) }
{
    first == from && end <= upto
}

// Whether two things are so.
fn both(one: bool, other: bool) -> bool
    ensures { result ≡ (one && other) }
{
    one && other
}

// 1 where something is so, else 0.
fn one_where(is_so: bool) -> u64
    ensures is { result ≡ (if is_so then 1 else 0) }
    ensures few { result ≤ 1 }
{
    if is_so { 1 } else { 0 }
}

impl Owned {
    /// For a sender that has claimed nothing.
    pub(crate) fn new(alloc: Global, size: Size) -> Result<Owned, AllocError>
        ensures { IfOk result (λ owned. owned ≡ record { claimed = replicate size 0; written = replicate size 0; published = replicate size 0 }) }
    {
        let none = Mark {
            entry: 0,
            is_written: false,
            is_published: false,
        };
        let marks = vec![in alloc; none; size.get() as usize]?;
        Ok(Owned {
            marks,
            size,
            shown: 0,
            filled: 0,
            end: 0,
        })
    }

    /// Notes that the sequences from `from` up to before `upto` are claimed, at most a round.
    pub(crate) fn claim(&mut self, from: u64, upto: u64)
        requires order { (from ≤ upto) × (upto ≤ 2 ^ 62) }
        requires round { upto ≤ from + length self.old.claimed }
        ensures { self.new ≡ after_claim self.old from (upto - from) }
    {
        mark_last_claim(
            &mut self.marks,
            self.size,
            self.shown,
            self.filled,
            self.end,
        );
        mark_all(&mut self.marks, self.size, from, upto);
        self.shown = from;
        self.filled = from;
        self.end = upto;
    }

    /// Notes that an open sequence is written.
    #[inline]
    pub(crate) fn write(&mut self, sequence: u64)
        requires small { sequence < 2 ^ 62 }
        requires opened { is_open_by self.old sequence ≡ true }
        ensures { self.new ≡ after_write self.old sequence }
    {
        if is_first(self.filled, self.end, sequence) {
            self.filled = sequence + 1;
            return;
        }
        self.write_apart(sequence);
    }

    // The same of one that is not the next of the last claim.
    fn write_apart(&mut self, sequence: u64)
        requires small { sequence < 2 ^ 62 }
        requires opened { is_open_by self.old sequence ≡ true }
        ensures { self.new ≡ after_write self.old sequence }
    {
        if is_in(self.shown, self.filled, sequence) {
            return;
        }
        mark_last_claim(
            &mut self.marks,
            self.size,
            self.shown,
            self.filled,
            self.end,
        );
        self.shown = self.end;
        self.filled = self.end;
        let slot = self.size.slot(sequence);
        self.marks[slot].is_written = true;
    }

    /// Notes that the sequences from `from` up to before `upto`, which may be published, are.
    pub(crate) fn publish(&mut self, from: u64, upto: u64)
        requires order { (from ≤ upto) × (upto ≤ 2 ^ 62) }
        requires ready { (s : ℕ) → from ≤ s → s < upto → is_ready_by self.old s ≡ true }
        ensures { self.new ≡ after_publication self.old from (upto - from) }
    {
        if begins(self.shown, self.filled, from, upto) {
            self.shown = upto;
            return;
        }
        self.publish_apart(from, upto);
    }

    // The same of those that are not the next of the last claim.
    fn publish_apart(&mut self, from: u64, upto: u64)
        requires order { (from ≤ upto) × (upto ≤ 2 ^ 62) }
        requires ready { (s : ℕ) → from ≤ s → s < upto → is_ready_by self.old s ≡ true }
        ensures { self.new ≡ after_publication self.old from (upto - from) }
    {
        mark_last_claim(
            &mut self.marks,
            self.size,
            self.shown,
            self.filled,
            self.end,
        );
        self.shown = self.end;
        self.filled = self.end;
        mark_all(&mut self.marks, self.size, from, upto);
    }

    /// Whether a sequence is its own. One of an older round is not told from another sender's.
    #[inline]
    pub(crate) fn has(&self, sequence: u64) -> bool
        requires { sequence < 2 ^ 62 }
        ensures { result ≡ is_marked self.now.claimed sequence }
    {
        if is_in(self.shown, self.end, sequence) {
            return true;
        }
        let mark = read(&self.marks, self.size, sequence);
        mark.entry == entry(self.size, sequence)
    }

    /// Whether a sequence of its own is published.
    #[inline]
    pub(crate) fn is_published(&self, sequence: u64) -> bool
        requires { sequence < 2 ^ 62 }
        ensures { result ≡ is_marked self.now.published sequence }
    {
        if is_in(self.shown, self.end, sequence) {
            return false;
        }
        let mark = read(&self.marks, self.size, sequence);
        both(mark.is_published, mark.entry == entry(self.size, sequence))
    }

    /// Whether a sequence is its own and not published.
    #[inline]
    pub(crate) fn is_open(&self, sequence: u64) -> bool
        requires { sequence < 2 ^ 62 }
        ensures { result ≡ is_open_by self.now sequence }
    {
        if is_in(self.shown, self.end, sequence) {
            return true;
        }
        let mark = read(&self.marks, self.size, sequence);
        both(mark.entry == entry(self.size, sequence), !mark.is_published)
    }

    // Whether a sequence may be published: it is its own, written and not published.
    #[inline]
    fn is_ready(&self, sequence: u64) -> bool
        requires { sequence < 2 ^ 62 }
        ensures { result ≡ is_ready_by self.now sequence }
    {
        if is_in(self.shown, self.end, sequence) {
            return sequence < self.filled;
        }
        let mark = read(&self.marks, self.size, sequence);
        let opened = both(mark.entry == entry(self.size, sequence), !mark.is_published);
        both(opened, mark.is_written)
    }

    /// The first sequence from `from` on that may not be published, or `upto`.
    pub(crate) fn first_unready(&self, from: u64, upto: u64) -> u64
        requires { (from ≤ upto) × (upto ≤ 2 ^ 62) }
        ensures { IsFront (is_ready_by self.now) from upto result }
    {
        if is_part(self.shown, self.filled, from, upto) {
            return upto;
        }
        self.walk(from, upto)
    }

    // The same by a look at each.
    fn walk(&self, from: u64, upto: u64) -> u64
        requires { (from ≤ upto) × (upto ≤ 2 ^ 62) }
        ensures { IsFront (is_ready_by self.now) from upto result }
    {
        for sequence in from..upto {
            if !self.is_ready(sequence) {
                return sequence;
            }
        }
        upto
    }

    /// How many of the sequences from `from` up to before `upto` are open.
    pub(crate) fn count_open(&self, from: u64, upto: u64) -> u64
        requires { (from ≤ upto) × (upto ≤ 2 ^ 62) }
        ensures count { result ≡ open_count (is_open_by self.now) from (upto - from) }
        ensures few { result ≤ upto - from }
    {
        let mut count = 0;
        for sequence in from..upto {
            count += one_where(self.is_open(sequence));
        }
        count
    }
}
