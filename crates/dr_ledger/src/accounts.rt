//! The accounts of a ledger that starts.

ghost use Rattle.std.specs.Prelude.{◌≡◌, ◌++◌, [], List, OnOk, IfErr};
ghost use Rattle.dr_seq.specs.declared.event.Event.{Event};
ghost use Rattle.dr_ledger.specs.Starting.{AreBooked, count_of};
ghost use Rattle.dr_ledger.specs.Standing.{HasBooked};
ghost use Rattle.dr_ledger.specs.declared.fault.LedgerFault.TheVariants.{Memory};

use crate::LedgerFault;
use dr_accounts::{Business, Responder};
use dr_meaning::show;
use dr_seq::Event;
use std::alloc::Global;

/// The accounts of a ledger that starts, and how many operations they have: those that its files say,
/// as they come. After a fault they are of no more use.
#[derive(Drop)]
pub struct Accounts {
    business: Business,
    count: u64,
}

impl Accounts {
    /// Accounts that have no operation yet.
    pub fn new(alloc: Global) -> Accounts
        ensures { AreBooked result [] }
    {
        Accounts {
            business: Business::new(alloc),
            count: 0,
        }
    }

    /// How many operations they have.
    pub fn count(&self) -> u64
        ensures { result ≡ count_of self.now }
    {
        self.count
    }

    /// Books the next operations.
    pub fn book(&mut self, events: &[Event]) -> Result<(), LedgerFault>
        // Behind whatever they had, they have these.
        ensures booked { (past : List Event) → AreBooked self.old past → OnOk result (AreBooked self.new (past ++ events.now)) }
        ensures memory { IfErr result (λ fault. fault ≡ Memory) }
    {
        show(&mut self.business, events, 0, true);
        if self.business.is_failed() {
            return Err(LedgerFault::Memory);
        }
        match self.count.checked_add(events.len() as u64) {
            Some(count) => {
                self.count = count;
                Ok(())
            }
            None => Err(LedgerFault::Memory),
        }
    }

    /// The business handler of a ledger that goes on from them.
    pub fn into_responder(self, alloc: Global) -> Responder
        ensures { (past : List Event) → AreBooked self past → HasBooked result past }
    {
        Responder::new(alloc, self.business)
    }
}
