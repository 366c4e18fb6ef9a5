//! A strip with its memory.
ghost use Rattle.std.specs.Prelude.{◌≡◌, ◌<◌, length, IfOk, IfErr};
ghost use Rattle.core.specs.Mem.Slots.{slots_items, slots_ptr, slots_len, lease_ptr, lease_len, lease_heap, IsFull};

use crate::cells::Cells;
use crate::deed::Deed;
use crate::row::Row;
use crate::values::Values;
use core::slots::{Slots, reserve};
use std::alloc::{AllocFailed, Allocator, Global};
use std::mem::ManuallyDrop;

/// The memory of a strip of cells. It is freed once the strip is closed with each of its cells whole.
/// A strip that is dropped before keeps its memory, and its values are never dropped: some token may
/// still be out.
pub struct Strip<T, A: Allocator = Global> {
    /// Where the cells lie.
    pub cells: Cells<T>,
    /// How many they are.
    pub len: usize,
    deed: Deed<T, A>,
    heap: A,
    ghost some: { 0 < len },
    ghost leased: { (lease_ptr deed.lease ≡ cells.ptr) × (lease_len deed.lease ≡ len) × (lease_heap deed.lease ≡ heap) },
}

// Moves the items to the places of the row, the last first.
fn fill<T, B: Allocator>(row: &mut Slots<T>, mut items: Vec<T, B>)
    requires { slots_len row.old ≡ length items.items }
    ensures { IsFull row.new × (slots_items row.new ≡ items.items) × (slots_ptr row.new ≡ slots_ptr row.old) × (slots_len row.new ≡ slots_len row.old) }
{
    while let Some(x) = items.pop() {
        row.put(items.len(), x);
    }
    items.destroy_empty();
}

impl<T, A: Allocator> Strip<T, A> {
    ghost use Rattle.dr_cells.specs.Tokens.{IsAll};

    /// A strip of the items, a cell each, and the right to all of them. At an error there was no
    /// memory, and the items come back.
    pub fn new<B: Allocator>(
        alloc: A,
        items: Vec<T, B>,
    ) -> Result<(Strip<T, A>, Row<T>), AllocFailed<Vec<T, B>>>
        requires { 0 < length items.items }
        // The row is all cells of the strip, which hold the items in order.
        ensures ok { IfOk result (λ r. IsAll r.0.cells.ptr r.0.len r.1 × (r.1.items ≡ items.items)) }
        // Without memory the items come back.
        ensures err { IfErr result (λ e. e.value.items ≡ items.items) }
    {
        let len = items.len();
        let Ok((mut slots, lease)) = (unsafe { reserve(&alloc, items.as_slice()) }) else {
            return Err(AllocFailed { value: items });
        };
        fill(&mut slots, items);
        let (cells, row) = Row::of(slots);
        let deed = Deed::new(lease);
        let strip = Strip {
            cells,
            len,
            deed,
            heap: alloc,
        };
        Ok((strip, row))
    }

    /// The values, once each cell is whole again.
    pub fn close(self, row: Row<T>) -> Values<T, A>
        requires { IsAll self.cells.ptr self.len row }
        // They are what the row says that its cells hold, in order.
        ensures { result ≡ row.items }
    {
        let Strip {
            cells,
            len,
            deed,
            heap,
        } = self;
        Values::new(row.into_slots(cells, len), deed.into_lease(), heap)
    }
}

impl<T, A: Allocator> Drop for Strip<T, A> {
    fn drop(self) {
        let Strip {
            cells: _,
            len: _,
            deed,
            heap: _,
        } = self;
        let _kept = unsafe { ManuallyDrop::new_unchecked(deed) };
    }
}
