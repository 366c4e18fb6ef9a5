//! The business handler: balances by account.

ghost use Rattle.std.specs.Prelude.{◌≡◌, ◌+◌, ◌++◌, [], false, IfOk, OnOk, nat_lt, not, string_bytes};
ghost use Rattle.std.specs.BTreeMap.{IsOrdered};
ghost use Rattle.std.specs.Ordering.{nat_cmp};
ghost use Rattle.dr_accounts.specs.Accounts.{is_refused};
ghost use Rattle.dr_accounts.specs.Handlers.{Booked, IsBusinessOf, Moved, Puts, account_lines, added, balance_in, business_text, kept, taken};
ghost use Rattle.dr_accounts.specs.Report.{account_line};

use crate::heading::headed;
use dr_meaning::Handler;
use dr_operations::{Movement, Operation};
use dr_seq::Event;
use std::alloc::{AllocError, Global};
use std::collections::BTreeMap;

/// What is kept of an account.
#[derive(Clone, Copy, Debug, PartialEq, Eq)]
pub struct Account {
    pub balance: u128,
    /// How many movements asked for more than the balance.
    pub refused: u64,
}

/// An account that no movement has changed.
const EMPTY: Account = Account {
    balance: 0,
    refused: 0,
};

/// A handler that keeps the balance of each account that an event names. Once it finds no memory it
/// has failed, and takes no more.
#[derive(Drop)]
pub struct Business {
    accounts: BTreeMap<u16, Account>,
    count: u64,
    failed: bool,
}

impl Business {
    /// A handler that was shown nothing yet.
    pub fn new(alloc: Global) -> Business
        // It holds what no events make, and did not fail.
        ensures empty { IsBusinessOf result [] }
        ensures well { result.failed ≡ false }
    {
        Business {
            accounts: BTreeMap::new(alloc),
            count: 0,
            failed: false,
        }
    }

    /// Whether it found no memory.
    pub fn is_failed(&self) -> bool
        ensures { result ≡ self.now.failed }
    {
        self.failed
    }

    // Adds an amount to an account, which is thereby named.
    fn add(&mut self, number: u16, amount: u64) -> Result<(), AllocError>
        ensures put { OnOk result (Puts number (added (kept self.old number) amount) self.old self.new) }
        ensures count { self.new.count ≡ self.old.count }
        ensures failed { self.new.failed ≡ self.old.failed }
    {
        let account = self.accounts.entry(number)?.or_insert(EMPTY);
        account.balance = account
            .balance
            .checked_add(amount as u128)
            .ok_or(AllocError)?;
        Ok(())
    }

    // Takes an amount from an account, where that has so much; else counts a refusal. Says whether
    // it was taken.
    fn take(&mut self, number: u16, amount: u64) -> Result<bool, AllocError>
        ensures had { IfOk result (λ had. had ≡ not (nat_lt (balance_in (kept self.old number)) amount)) }
        ensures put { OnOk result (Puts number (taken (kept self.old number) amount) self.old self.new) }
        ensures count { self.new.count ≡ self.old.count }
        ensures failed { self.new.failed ≡ self.old.failed }
    {
        let account = self.accounts.entry(number)?.or_insert(EMPTY);
        if account.balance < amount as u128 {
            account.refused = account.refused.checked_add(1).ok_or(AllocError)?;
            return Ok(false);
        }
        account.balance -= amount as u128;
        Ok(true)
    }

    fn withdraw(&mut self, number: u16, amount: u64) -> Result<(), AllocError>
        ensures put { OnOk result (Puts number (taken (kept self.old number) amount) self.old self.new) }
        ensures count { self.new.count ≡ self.old.count }
        ensures failed { self.new.failed ≡ self.old.failed }
    {
        self.take(number, amount)?;
        Ok(())
    }

    // A refused transfer names its second account too.
    fn transfer(&mut self, from: u16, to: u16, amount: u64) -> Result<(), AllocError>
        ensures moved { OnOk result (Moved (Movement.Transfer from to amount) self.old self.new) }
        ensures count { self.new.count ≡ self.old.count }
        ensures failed { self.new.failed ≡ self.old.failed }
    {
        let moved = if self.take(from, amount)? { amount } else { 0 };
        self.add(to, moved)
    }

    // Takes a movement through the accounts.
    fn apply(&mut self, movement: Movement) -> Result<(), AllocError>
        ensures moved { OnOk result (Moved movement self.old self.new) }
        ensures count { self.new.count ≡ self.old.count }
        ensures failed { self.new.failed ≡ self.old.failed }
    {
        match movement {
            Movement::Deposit { account, amount } => self.add(account, amount as u64),
            Movement::Withdraw { account, amount } => self.withdraw(account, amount as u64),
            Movement::Transfer { from, to, amount } => self.transfer(from, to, amount),
        }
    }

    /// How many events it has taken.
    pub(crate) fn count(&self) -> u64
        ensures { result ≡ self.now.count }
    {
        self.count
    }

    /// The balance of an account, which is 0 until an event names it.
    pub fn balance(&self, number: u16) -> u128
        ensures { result ≡ balance_in (kept self.now number) }
    {
        match self.accounts.get(&number) {
            Some(account) => account.balance,
            None => 0,
        }
    }

    /// Whether a movement takes more than an account has.
    pub(crate) fn refuses(&self, movement: Movement) -> bool
        ensures { result ≡ is_refused movement (λ a. balance_in (kept self.now a)) }
    {
        match movement {
            Movement::Deposit { .. } => false,
            Movement::Withdraw { account, amount } => self.balance(account) < amount as u128,
            Movement::Transfer { from, amount, .. } => self.balance(from) < amount as u128,
        }
    }

    // Takes an event through the accounts.
    pub(crate) fn book(&mut self, event: Event) -> Result<(), AllocError>
        ensures booked { OnOk result (Booked event self.old self.new) }
        ensures failed { self.new.failed ≡ self.old.failed }
    {
        self.apply(Operation::of(event).movement)?;
        self.count = self.count.checked_add(1).ok_or(AllocError)?;
        Ok(())
    }

    /// The part of the business handler in the report.
    pub fn into_text(self, alloc: Global) -> Result<String, AllocError>
        // The text is the handler's part, with a line for each account that it keeps.
        ensures text { IfOk result (λ text. string_bytes text ≡ business_text self) }
        // It keeps its accounts in rising order.
        ensures ordered { IsOrdered nat_cmp self.accounts }
    {
        let mut lines = String::new(alloc);
        push_accounts(&mut lines, &self.accounts)?;
        headed(alloc, "business", self.count, lines)
    }
}

fn push_account(report: &mut String, number: u16, account: Account) -> Result<(), AllocError>
    ensures { OnOk result (string_bytes report.new ≡ string_bytes report.old ++ account_line number account.balance account.refused) }
{
    let Account { balance, refused } = account;
    writeln!(report, "{number},{balance},{refused}")
}

fn push_accounts(report: &mut String, accounts: &BTreeMap<u16, Account>) -> Result<(), AllocError>
    ensures lines { OnOk result (string_bytes report.new ≡ string_bytes report.old ++ account_lines accounts.now.entries) }
    ensures ordered { IsOrdered nat_cmp accounts.now }
{
    for (number, account) in accounts {
        push_account(report, *number, *account)?;
    }
    Ok(())
}

impl Handler<Event> for Business {
    ghost use Rattle.dr_accounts.specs.Handlers.{Books};

    ghost goes = { λ old event s end new. Books old event new };

    fn on_event(&mut self, event: Event, _s: u64, _end: bool) {
        if self.failed {
            return;
        }
        if self.book(event).is_err() {
            self.failed = true;
        }
    }
}
