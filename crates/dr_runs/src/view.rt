//! What a seat at the table of an exchange's words stands for.

use atomic_table::Play;
use std::collections::LinkedList;
use std::marker::Brand;

/// What a seat stands for: the records `E` of one or more ends and, for each, the steps `S` of all
/// ends from the exchange's opening up to the last one by this end. No value of it is ever made: it
/// stands in proofs alone.
pub struct View<E, S> {
    pub ends: LinkedList<E>,
    pub pasts: LinkedList<LinkedList<S>>,
}

// The proof of each step says at the call what the step tells; by itself it tells nothing.
impl<E, S> Play<u64, View<E, S>> for Brand {
    ghost use Rattle.std.specs.Prelude.{◌≡◌};

    ghost then = { λ s me n me'. me' ≡ me };
}
