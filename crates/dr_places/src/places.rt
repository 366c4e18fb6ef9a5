//! The places, as those who leave something share them.

ghost use Rattle.std.specs.Prelude.{◌≡◌, ◌<◌, ℕ, length, IfOk, IfErr, IfSome};
ghost use mathlib.Core.Option.{some};
ghost use lib.ListN.{get_elem?};

use crate::gathered::{Gathered, are_all_there, let_go};
use atomic_table::{Play, Table, TableRule};
use std::alloc::{AllocError, Global};
use std::marker::Model;

// The word of a place: nobody came, somebody is putting something there, and it lies there.
const EMPTY: u64 = 0;

const TAKEN: u64 = 1;

/// The word of a place where something lies.
pub(crate) const LEFT: u64 = 2;

const _: () = prove!(EMPTY == 0 && TAKEN == 1 && LEFT == 2);

/// What may be left in which place, by a key that the places are told once.
pub trait Belongs<K> {
    ghost belongs: { K → ℕ → Self → Type 0 };

    ghost use Rattle.std.specs.Prelude.{ℕ};
}

/// The rule that each step keeps: what lies in a place belongs there.
pub struct PlaceRule;

impl<L: Belongs<K>, K> TableRule<Option<L>, (), K> for PlaceRule {
    ghost use Rattle.dr_places.specs.Rule.{Keeps};

    ghost holds = { λ key. Keeps (L.belongs key) };

    ghost first = { λ _. tt };
}

// What is told of a step: nothing, or that it took an empty place.
struct Tells;

impl<L> Play<Option<L>, ()> for Tells {
    ghost then = { λ _ _ _ _. Unit {0} };
}

struct Takes;

impl<L> Play<Option<L>, ()> for Takes {
    ghost use Rattle.dr_places.specs.Rule.{TookEmpty};

    ghost then = { TookEmpty };
}

/// Some places, each for one end. They have all their memory from the beginning.
#[derive(Drop)]
pub struct Places<L: Belongs<K>, K> {
    table: Table<Option<L>, (), K, PlaceRule, Global>,
}

impl<L: Belongs<K>, K> Model for Places<L, K> {
    ghost use Rattle.std.specs.Prelude.{◌≡◌};
    ghost use Rattle.dr_places.specs.Rule.{PlacesOf};

    ghost Value = { PlacesOf K };

    ghost view = { λ p. record { key = p.table.shared.key; count = p.table.shared.table_id.words } };

    ghost invariant = { λ p. p.table.shared.table_id.slots ≡ p.table.shared.table_id.words };
}

impl<L: Belongs<K>, K> Places<L, K> {
    /// So many empty places.
    pub fn new(alloc: Global, count: usize, key: &K) -> Result<Places<L, K>, AllocError>
        ensures { IfOk result (λ p. (p.key ≡ key.now) × (p.count ≡ count)) }
    {
        let words = vec![in alloc; EMPTY; count]?;
        let (table, _seat) = Table::vacant(alloc, words.as_slice(), count, key)?;
        Ok(Places { table })
    }

    /// Leaves something in a place. It comes back where somebody was there before. It never waits,
    /// and takes no memory.
    pub fn leave(&self, place: usize, left: L) -> Result<(), L>
        requires place { place < self.now.count }
        requires belongs { L.belongs self.now.key place left }
        ensures { IfErr result (λ back. back ≡ left) }
    {
        let shared = &self.table.shared;
        let (_, mut seat) = shared.load_new_seat::<Tells>(place);
        if shared.compare_exchange::<Takes>(&mut seat, place, EMPTY, TAKEN) != EMPTY {
            return Err(left);
        }
        let was = shared.exchange(&mut seat, place, Some(left));
        let None = was else { unreachable!() };
        shared.store::<Tells>(&mut seat, place, LEFT);
        Ok(())
    }
}

impl<L: Belongs<K> + Drop, K> Places<L, K> {
    /// All that was left, by the order of the places, where something lies in each of them.
    pub fn close(self) -> Option<Gathered<L>>
        // There is a thing for each place, of which it is known that it belongs there.
        ensures { IfSome result (λ all. (length all ≡ self.count) × ((i : ℕ) (l : L) → get_elem? all i ≡ some l → L.belongs self.key i l)) }
    {
        let Places { table } = self;
        let closed = table.close();
        if are_all_there(&closed) {
            return Some(Gathered::of(closed));
        }
        let_go(closed);
        None
    }
}
