//! The rounds of the ring: which sequences are marked, with an entry a slot.

ghost use Rattle.std.specs.Prelude.{◌≡◌, ◌+◌, ◌%◌, ◌^◌, ◌<◌, ◌≤◌, IfOk, length, replicate, slice_set};
ghost use Rattle.dr_seq.specs.Size.{IsSize};
ghost use Rattle.dr_seq.specs.Rounds.{entry_of, is_marked, IsFront};

use crate::size::Size;
use std::alloc::{AllocError, Global};
use std::marker::Model;

/// For each slot the round in which a sequence was last marked there, as the available buffer of
/// LMAX's multi producer sequencer: a mark of an older round does not count, so nothing has to be
/// cleared when a slot is used again. An entry is the round plus 1, and 0 means never, which is
/// this project's own. Contracts see the entries by slot.
#[derive(Drop)]
pub struct Rounds {
    entries: Vec<u64>,
    size: Size,
}

impl Model for Rounds {
    ghost use Rattle.std.specs.Prelude.{◌≡◌, ℕ, List, length};
    ghost use Rattle.dr_seq.specs.Size.{IsSize};

    ghost Value = { List ℕ };

    ghost view = { λ a. a.entries.items };

    ghost invariant = { λ a. (length a.entries.items ≡ a.size) × IsSize a.size };
}

impl Rounds {
    /// The rounds of a ring of a size, with nothing marked. An error is that memory ran out.
    pub fn new(alloc: Global, size: Size) -> Result<Rounds, AllocError>
        ensures { IfOk result (λ rounds. rounds ≡ replicate size 0) }
    {
        let entries = vec![in alloc; 0u64; size.get() as usize]?;
        Ok(Rounds { entries, size })
    }

    /// Marks a sequence. What was marked in its slot before no longer is.
    #[inline]
    pub fn mark(&mut self, s: u64)
        requires { s < 2 ^ 62 }
        // Its slot has the sequence's round plus 1, and the other slots stay.
        ensures { self.new ≡ slice_set self.old (s % length self.old) (entry_of (length self.old) s) }
    {
        let slot = self.size.slot(s);
        self.entries[slot] = self.size.round(s) + 1;
    }

    /// Whether a sequence is marked, in its own round.
    #[inline]
    pub fn is_marked(&self, s: u64) -> bool
        requires { s < 2 ^ 62 }
        ensures { result ≡ is_marked self.now s }
    {
        self.entries[self.size.slot(s)] == self.size.round(s) + 1
    }

    /// The first sequence from `from` on that is not marked, or `to`.
    pub fn front(&self, from: u64, to: u64) -> u64
        requires order { from ≤ to }
        requires round { to ≤ from + length self.now }
        requires small { to ≤ 2 ^ 62 }
        ensures { IsFront (is_marked self.now) from to result }
    {
        front_of(&self.entries, self.size, from, to)
    }
}

/// The walk up over the entries, on a slice of its own.
fn front_of(entries: &[u64], size: Size, from: u64, to: u64) -> u64
    requires slots { length entries.now ≡ size }
    requires size { IsSize size }
    requires order { from ≤ to }
    requires small { to ≤ 2 ^ 62 }
    ensures { IsFront (is_marked entries.now) from to result }
{
    let mut front = from;
    while front < to {
        if entries[size.slot(front)] != size.round(front) + 1 {
            return front;
        }
        front += 1;
    }
    front
}
