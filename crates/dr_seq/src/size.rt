//! How many slots a ring has.

ghost use Rattle.std.specs.Prelude.{◌≡◌, ◌%◌, ◌/◌, IfOk, IsOk, IsErr, Some, codes};
ghost use Rattle.dr_seq.specs.Size.{IsSize};

use std::fmt;
use std::marker::Model;
use thiserror::Error;

/// The number of a ring's slots: a power of two from 1 to [`Size::MAX`], as the LMAX library
/// has it, so that the slot of a sequence is found by a mask.
#[derive(Clone, Copy, Debug, PartialEq, Eq)]
pub struct Size {
    slots: u64,
}

impl Model for Size {
    ghost use Rattle.std.specs.Prelude.{ℕ};
    ghost use Rattle.dr_seq.specs.Size.{IsSize};

    ghost Value = { ℕ };

    ghost view = { λ a. a.slots };

    ghost invariant = { λ a. IsSize a.slots };

    ghost inverse = { λ n. record { slots = n } };
}

/// Refusal of a number that is no ring's size.
#[derive(Clone, Copy, Debug, PartialEq, Eq, Error)]
pub struct SizeFault;

impl Size {
    /// The greatest size, this project's own bound.
    pub const MAX: u64 = 65536;

    /// A size of `n` slots.
    pub fn new(n: u64) -> Result<Size, SizeFault>
        // It has `n` slots, which is a power of two from 1 to 65,536.
        ensures ok { IfOk result (λ size. size ≡ n) }
        ensures accepted { IsOk result → IsSize n }
        // No such number is refused.
        ensures refused { IsErr result → IsSize n → ⊥ }
    {
        if n == 0 || n > Size::MAX {
            return Err(SizeFault);
        }
        if n != 1 << n.ilog2() {
            return Err(SizeFault);
        }
        Ok(Size { slots: n })
    }

    /// How many slots there are.
    #[inline]
    pub fn get(&self) -> u64
        // It is the size, a power of two from 1 to 65,536.
        ensures value { result ≡ self.now }
        ensures size { IsSize result }
    {
        self.slots
    }

    /// The slot of a sequence: its remainder by the size, found by a mask.
    #[inline]
    pub fn slot(&self, s: u64) -> usize
        ensures { result ≡ s % self.now }
    {
        (s & (self.slots - 1)) as usize
    }

    /// How many times the ring was gone round before a sequence: its quotient by the size, found
    /// by a shift.
    #[inline]
    pub fn round(&self, s: u64) -> u64
        ensures { result ≡ s / self.now }
    {
        s >> self.slots.trailing_zeros()
    }
}

impl SizeFault {
    /// The fault's number, which stays the same in every release.
    pub fn number(&self) -> u32
        ensures { result ≡ 31 }
    {
        31
    }

    /// The fault's name, as programs print it.
    pub fn name(&self) -> &'static str
        ensures { result.now ≡ codes "bad-size" }
    {
        "bad-size"
    }
}

impl fmt::Display for SizeFault {
    ghost output = { λ _. Some (codes "bad-size") };

    fn fmt<W: fmt::Write>(&self, f: &mut fmt::Formatter<W>) -> fmt::Result {
        f.write_str(self.name())
    }
}
