//! The values of a strip that was closed.
ghost use Rattle.std.specs.Prelude.{◌≡◌, ◌<◌, [], ◌∷◌, List, MatchOption};
ghost use Rattle.core.specs.Mem.Slots.{slots_items, slots_ptr, slots_len, lease_ptr, lease_len, lease_heap, IsFull};

use core::slots::{Lease, Slots, release};
use std::alloc::{Allocator, Global};
use std::marker::Model;

/// The values of a strip that was closed, by the order of their cells. A contract sees those that are
/// left. Dropping it drops them, and frees the strip's memory.
pub struct Values<T, A: Allocator = Global> {
    slots: Slots<T>,
    next: usize,
    lease: Lease<T, A>,
    heap: A,
}

impl<T, A: Allocator> Model for Values<T, A> {
    ghost use Rattle.std.specs.Prelude.{List};
    ghost use lib.ListN.{drop};
    ghost use Rattle.core.specs.Mem.Slots.{slots_items};
    ghost use Rattle.dr_cells.specs.Left.{IsLeft, IsLeaseOf};

    ghost Value = { List T };

    ghost view = { λ v. drop v.next (slots_items v.slots) };

    ghost invariant = { λ v. IsLeft v.slots v.next × IsLeaseOf v.lease v.slots v.heap };
}

impl<T, A: Allocator> Values<T, A> {
    pub(crate) fn new(slots: Slots<T>, lease: Lease<T, A>, heap: A) -> Values<T, A>
        requires { IsFull slots × (lease_ptr lease ≡ slots_ptr slots) × (lease_len lease ≡ slots_len slots) × (lease_heap lease ≡ heap) }
        ensures { result ≡ slots_items slots }
    {
        Values {
            slots,
            next: 0,
            lease,
            heap,
        }
    }

    /// The next value.
    pub fn next(&mut self) -> Option<T>
        ensures { MatchOption result ((self.old ≡ []) × (self.new ≡ [])) (λ x. self.old ≡ x ∷ self.new) }
    {
        if self.next == self.slots.len() {
            return None;
        }
        let value = self.slots.take(self.next);
        self.next += 1;
        Some(value)
    }

    // Frees the memory, which no value is left in.
    fn free(self)
        requires { self ≡ [] }
    {
        let Values {
            slots,
            next: _,
            lease,
            heap,
        } = self;
        release(&heap, slots, lease);
    }
}

impl<T: Drop, A: Allocator> Drop for Values<T, A> {
    fn drop(self) {
        let mut values = self;
        while let Some(value) = values.next() {
            drop(value);
        }
        values.free();
    }
}
