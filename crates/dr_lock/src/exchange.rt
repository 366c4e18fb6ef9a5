//! Which exchange lies behind a lock.

use std::marker::Brand;
use std::sync::ledger::Ledger;

/// A ledger, and the history with which it began to count. A program picks it where it passes
/// `Brand`.
pub trait Exchange<E>: Ledger {
    ghost use Rattle.dr_lock.specs.Meaning.History.{History};

    ghost begun: { History E };
}

impl<E> Exchange<E> for Brand {
    ghost use Rattle.std.specs.Prelude.{[]};
    ghost use Rattle.dr_core.specs.Calls.CoreView.{opened};
    ghost use Rattle.dr_meaning.specs.Meaning.Machine.{setup_of};
    ghost use Rattle.dr_meaning.specs.declared.mode.Mode.TheVariants.{Single};

    ghost begun = { record { core = opened (setup_of [] 1 Single 1) []; entries = []; values = [] } };
}
