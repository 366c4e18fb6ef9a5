//! The right to a cell.
ghost use Rattle.std.specs.Prelude.{◌≡◌, ℕ, Some};
ghost use Rattle.std.specs.Borrow.{sem};
ghost use denote.RawPtr.{Ptr};
ghost use Rattle.dr_cells.specs.Hold.{Hold, coded_hold, whole, held, IsHeld, IsWhole, lent, CanSplit, split, one_part, CanJoin, joined, IsBack, regained};
ghost use Rattle.dr_cells.specs.Owned.{token_owns, token_shares};

use crate::cells::Cells;
use std::marker::{Model, PhantomData};

/// What its holder may do with one cell. It has no bytes, and says nothing where it is blank.
///
/// A token that is dropped takes its right with it: the cell's value is then never dropped, and its
/// memory never freed.
#[derive(Drop)]
pub struct Token<T> {
    pub(crate) mark: PhantomData<*const T>,
    pub ghost strip: { Ptr },
    pub ghost cell: { ℕ },
    pub ghost hold: { Hold T } by { coded_hold T.code },
}

impl<T> Model for Token<T> {
    ghost also_owns = { λ t. token_owns T.row t.cell t.strip t.hold };

    ghost also_shares = { λ t _ κ. token_shares T.row t.cell t.strip t.hold κ };
}

impl<T> Token<T> {
    ghost use Rattle.dr_cells.specs.Tokens.{with_hold, no_token, IsOf};
    ghost use Rattle.dr_cells.specs.Lends.{lends_cell};

    /// A token with no right at all.
    pub fn blank() -> Token<T>
        ensures { result ≡ no_token }
    {
        Token { mark: PhantomData }
    }

    /// The value in the cell, for as long as the token stays.
    pub fn get(&self, cells: Cells<T>, index: usize) -> &T
        requires { IsOf cells.ptr index self.now × IsHeld self.now.hold }
        ensures { held self.now.hold ≡ Some result.now }
    {
        unsafe { &*cells.ptr.add(index) }
    }

    /// The value in the cell, to be written. The token then holds what is written last.
    pub fn get_mut(&mut self, cells: Cells<T>, index: usize) -> &mut T
        requires { IsOf cells.ptr index self.old × IsWhole self.old.hold }
        // What you write there last is what the token says then.
        ensures* writes_back { sem 𝓛 (lends_cell T.row self.entry result) }
        // What you find there is what the token said.
        ensures value { self.old.hold ≡ whole result.now }
    {
        unsafe { &mut *cells.ptr.add(index) }
    }

    /// Begins a lending of the cell, of which no part is out yet.
    pub fn lend(&mut self)
        requires { IsWhole self.old.hold }
        ensures { (round : ℕ) × (self.new ≡ with_hold self.old (lent round self.old.hold)) }
    {}

    /// One part of the lending, to be read by whoever has it.
    pub fn split(&mut self) -> Token<T>
        requires { CanSplit self.old.hold }
        ensures { (self.new ≡ with_hold self.old (split self.old.hold)) × (result ≡ with_hold self.old (one_part self.old.hold)) }
    {
        Token { mark: PhantomData }
    }

    /// Takes a part of the lending back.
    pub fn join(&mut self, part: Token<T>)
        requires { CanJoin self.old.hold part.hold }
        ensures { self.new ≡ with_hold self.old (joined self.old.hold) }
    {
        let Token { mark: _ } = part;
    }

    /// Ends the lending, once each part is back.
    pub fn regain(&mut self)
        requires { IsBack self.old.hold }
        ensures { self.new ≡ with_hold self.old (regained self.old.hold) }
    {}
}

unsafe impl<T: Send + Sync> Send for Token<T> {}

unsafe impl<T: Sync> Sync for Token<T> {}
