//! What C holds of an end of a ring.

ghost use Rattle.std.specs.Prelude.{◌≡◌, Option, Some, None, IsSome, is_some};
ghost use Rattle.std.specs.Option.{option_map};
ghost use Rattle.std_heap.specs.declared.Global.{Global as Heap};
ghost use Rattle.std_heap.specs.contracts.GlobalAllocator.TheImpl.{ghosts as heaps};
ghost use Rattle.dr_c.specs.Handles.{held, opened};
ghost use Rattle.dr_c.specs.declared.end.End.{End};
ghost use Rattle.dr_c.specs.contracts.end.End.{the_row as Row};

use crate::end::End;
use crate::freed::Freed;
use crate::loose::Loose;
use std::alloc::Global;
use std::marker::Model;

/// The pointer of a box with an end, and the heap that frees it, or nothing.
#[repr(C)]
#[derive(Drop)]
pub struct Held {
    at: *mut u8,
    pub ghost value: { Option End },
    pub ghost heap: { Heap },
}

impl Model for Held {
    ghost also_owns = { λ h. held (heaps.dealloc_token h.heap) Row h.at h.value };
}

impl Held {
    /// Takes the box out, and leaves nothing.
    fn take(&mut self, alloc: Global) -> Loose<End, Global>
        requires { IsSome self.old.value }
        ensures value { self.old.value ≡ Some result.value }
        ensures none { self.new.value ≡ None }
    {
        let at = self.at as *mut End;
        Loose { at, alloc }
    }

    /// Holds a box.
    fn holding(loose: Loose<End, Global>) -> Held
        ensures { result.value ≡ Some loose.value }
    {
        let Loose { at, alloc } = loose;
        let at = at as *mut u8;
        Held { at }
    }
}

/// A handle of C: all zeros before it is first opened. Once it is freed its state is 0 again. The rest of a cache line
/// and its neighbour keeps two handles that two threads use apart.
#[repr(C)]
#[derive(Drop)]
pub struct Handle {
    pub held: Held,
    state: u64,
    rest: [u64; 14],
    ghost agrees: { state ≡ opened held.value },
}

impl Handle {
    /// Whether it has an end.
    pub(crate) fn is_open(&self) -> bool
        ensures { result ≡ is_some self.now.held.value }
    {
        self.state != 0
    }

    /// Takes the end out.
    pub(crate) fn take(&mut self, alloc: Global) -> Box<End, Global>
        requires { IsSome self.old.held.value }
        ensures end { self.old.held.value ≡ Some result.value }
        ensures none { self.new.held.value ≡ None }
    {
        self.state = 0;
        self.held.take(alloc).into_box()
    }

    /// Holds an end, in the place of what it had.
    pub(crate) fn keep(&mut self, end: Box<End, Global>)
        ensures { self.new.held.value ≡ Some end.value }
    {
        self.held = Held::holding(Loose::of(end));
        self.state = 1;
    }

    /// Takes the end out, if there is one.
    fn out(&mut self, alloc: Global) -> Option<Box<End, Global>>
        ensures end { option_map (λ end. end.value) result ≡ self.old.held.value }
        ensures none { self.new.held.value ≡ None }
    {
        if self.is_open() {
            Some(self.take(alloc))
        } else {
            None
        }
    }

    /// Frees what it has, and leaves it without an end.
    pub(crate) fn free(&mut self, alloc: Global) -> Freed<End>
        // What is freed is the end as it was: nothing is called on it before.
        ensures freed { option_map (λ end. end.value) result.last.value ≡ self.old.held.value }
        ensures none { self.new.held.value ≡ None }
    {
        let end = self.out(alloc);
        Freed::of(end)
    }
}
