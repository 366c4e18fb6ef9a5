//! The slots of a ring.

ghost use Rattle.std.specs.Prelude.{◌≡◌, ◌+◌, ◌++◌, ◌%◌, ◌≤◌, IfOk, length, map, replicate, slice_set};
ghost use Rattle.std.specs.List.{range_with_len};
ghost use Rattle.dr_seq.specs.Size.{IsSize};
ghost use Rattle.dr_seq.specs.Slots.{event_at};

use crate::size::Size;
use std::alloc::{AllocError, Global};
use std::marker::Model;

/// An event a slot, made once and used again. Contracts see the events by slot.
#[derive(Drop)]
pub struct Slots<E> {
    events: Vec<E>,
    size: Size,
}

impl<E> Model for Slots<E> {
    ghost use Rattle.std.specs.Prelude.{◌≡◌, List, length};
    ghost use Rattle.dr_seq.specs.Size.{IsSize};

    ghost Value = { List E };

    ghost view = { λ a. a.events.items };

    ghost invariant = { λ a. (length a.events.items ≡ a.size) × IsSize a.size };
}

impl<E: Copy> Slots<E> {
    /// The slots of a ring of a size, each with the same event. An error is that memory ran out.
    pub fn new(alloc: Global, size: Size, blank: E) -> Result<Slots<E>, AllocError>
        ensures { IfOk result (λ slots. slots ≡ replicate size blank) }
    {
        let mut events = Vec::new(alloc);
        events.resize(size.get() as usize, blank)?;
        Ok(Slots { events, size })
    }

    /// Puts an event into the slot of a sequence, in place of what lay there.
    #[inline]
    pub fn put(&mut self, s: u64, event: E)
        // The slot of the sequence has the event, and the other slots stay.
        ensures { self.new ≡ slice_set self.old (s % length self.old) event }
    {
        let slot = self.size.slot(s);
        self.events[slot] = event;
    }

    /// The events of so many sequences from one on, where they lie: those before the ring's end, and
    /// the rest from its beginning on.
    #[inline]
    pub fn slices(&self, first: u64, count: usize) -> (&[E], &[E])
        requires { count ≤ length self.now }
        // Both pieces together are the events of these sequences in order, and as many as asked.
        ensures events { (d : E) → result.0.now ++ result.1.now ≡ map (λ s. event_at d self.now s) (range_with_len first count) }
        ensures count { length result.0.now + length result.1.now ≡ count }
    {
        let slots = self.events.as_slice();
        let at = self.size.slot(first);
        let head = count.min(slots.len() - at);
        (&slots[at..at + head], &slots[..count - head])
    }

    /// Copies the events of the sequences from one on, as many as `out` holds.
    pub fn copy_to(&self, first: u64, out: &mut [E])
        requires { length out.old ≤ length self.now }
        ensures { (d : E) → out.new ≡ map (λ s. event_at d self.now s) (range_with_len first (length out.old)) }
    {
        let slots = self.events.as_slice();
        let at = self.size.slot(first);
        let head = out.len().min(slots.len() - at);
        let (front, back) = out.split_at_mut(head);
        front.copy_from_slice(&slots[at..at + head]);
        back.copy_from_slice(&slots[..back.len()]);
    }

    /// The event in the slot of a sequence.
    #[inline]
    pub fn get(&self, s: u64) -> E
        ensures { (d : E) → result ≡ event_at d self.now s }
    {
        self.events[self.size.slot(s)]
    }
}
