//! Whole cells side by side.
ghost use Rattle.std.specs.Prelude.{◌≡◌, ℕ, ◌+◌, ◌<◌, [], ◌∷◌, ◌++◌, List, length};
ghost use denote.RawPtr.{Ptr};
ghost use Rattle.core.specs.Mem.Slots.{slots_items, slots_ptr, slots_len, IsFull};
ghost use Rattle.dr_cells.specs.Hold.{IsWhole, whole};
ghost use Rattle.dr_cells.specs.Owned.{row_owns};

use crate::cells::Cells;
use crate::token::Token;
use core::slots::Slots;
use std::marker::{Model, PhantomData};

/// Cells of a strip side by side, each whole. It has no bytes. A row that is dropped takes the right to
/// its cells with it, as a token does.
#[derive(Drop)]
pub struct Row<T> {
    mark: PhantomData<*const T>,
    pub ghost strip: { Ptr },
    pub ghost from: { ℕ },
    pub ghost items: { List T },
}

impl<T> Model for Row<T> {
    ghost also_owns = { λ r. row_owns T.row r.strip r.from r.items };
}

impl<T> Row<T> {
    ghost use Rattle.dr_cells.specs.Tokens.{IsOf};

    // The cells are the places of a full row of slots.
    pub(crate) fn of(slots: Slots<T>) -> (Cells<T>, Row<T>)
        requires { IsFull slots }
        ensures { (result.0.ptr ≡ slots_ptr slots) × (result.1.strip ≡ slots_ptr slots) × (result.1.from ≡ 0) × (result.1.items ≡ slots_items slots) }
    {
        let parts = unsafe { slots.into_raw_parts() };
        (Cells { ptr: parts.0 }, Row { mark: PhantomData })
    }

    // The slots whose places all the cells are.
    pub(crate) fn into_slots(self, cells: Cells<T>, len: usize) -> Slots<T>
        requires { (self.strip ≡ cells.ptr) × (self.from ≡ 0) × (len ≡ length self.items) × (0 < len) }
        ensures { (slots_ptr result ≡ cells.ptr) × (slots_len result ≡ len) × (slots_items result ≡ self.items) × IsFull result }
    {
        let Row { mark: _ } = self;
        let Cells { ptr } = cells;
        unsafe { Slots::from_raw_parts(ptr, len) }
    }

    /// A row of no cell, before the first.
    pub fn none(cells: Cells<T>) -> Row<T>
        ensures { (result.strip ≡ cells.ptr) × (result.from ≡ 0) × (result.items ≡ []) }
    {
        let _ = cells;
        Row { mark: PhantomData }
    }

    /// The token of the first cell.
    pub fn take(&mut self) -> Token<T>
        requires { 0 < length self.old.items }
        // The whole token of the row's first cell comes out, with what lies there; the row begins one later.
        ensures rest { (self.new.strip ≡ self.old.strip) × (self.new.from ≡ self.old.from + 1) }
        ensures first { (x : T) × (self.old.items ≡ x ∷ self.new.items) × IsOf self.old.strip self.old.from result × (result.hold ≡ whole x) }
    {
        Token { mark: PhantomData }
    }

    /// Puts the cell that follows the last one back.
    pub fn give(&mut self, token: Token<T>)
        requires { IsOf self.old.strip (self.old.from + length self.old.items) token × IsWhole token.hold }
        // The row begins as before, and what lies in the cell comes last.
        ensures row { (self.new.strip ≡ self.old.strip) × (self.new.from ≡ self.old.from) }
        ensures last { (x : T) × (token.hold ≡ whole x) × (self.new.items ≡ self.old.items ++ x ∷ []) }
    {
        let Token { mark: _ } = token;
    }
}

unsafe impl<T: Send> Send for Row<T> {}
