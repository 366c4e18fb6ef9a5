//! The business handler of a ledger, which answers each operation.

ghost use Rattle.std.specs.Prelude.{◌≡◌, ◌++◌, [], false, Bool, List, OnOk, ℕ, string_bytes};
ghost use Rattle.dr_meaning.specs.Calls.Handling.{GoesThrough, showings};
ghost use Rattle.dr_accounts.specs.Answers.{answer_line, answered, answers_to};
ghost use Rattle.dr_accounts.specs.Handlers.{IsBusinessOf};
ghost use Rattle.dr_accounts.specs.Responding.{Answered, IsResponderOf, answering};

use crate::business::Business;
use dr_meaning::Handler;
use dr_operations::{Movement, Operation};
use dr_seq::Event;
use std::alloc::{AllocError, Global};

/// A handler that keeps the balance of each account, and writes a line of answer for each event:
/// `SEQ applied BALANCE` or `SEQ refused BALANCE`, of a transfer with the payer's balance. Who drives
/// it takes the answers at the end of a batch, and clears them. Once it finds no memory it has
/// failed, and takes no more.
#[derive(Drop)]
pub struct Responder {
    business: Business,
    answers: String,
    failed: bool,
}

// The account whose balance an answer has.
fn account_of(movement: Movement) -> u16
    ensures { result ≡ answered movement }
{
    match movement {
        Movement::Deposit { account, .. } => account,
        Movement::Withdraw { account, .. } => account,
        Movement::Transfer { from, .. } => from,
    }
}

// Adds a line of answer.
fn push_answer(answers: &mut String, s: u64, refused: bool, balance: u128) -> Result<(), AllocError>
    ensures { OnOk result (string_bytes answers.new ≡ string_bytes answers.old ++ answer_line s refused balance) }
{
    if refused {
        writeln!(answers, "{s} refused {balance}")
    } else {
        writeln!(answers, "{s} applied {balance}")
    }
}

impl Responder {
    /// A responder that goes on from accounts: the sequence of its first answer is the number of
    /// events that they were shown.
    pub fn new(alloc: Global, business: Business) -> Responder
        // If the accounts are those of some events, it goes on from these, and has no answer yet.
        ensures empty { (past : List Event) → IsBusinessOf business past → IsResponderOf result past [] }
        // It failed if and only if the accounts' handler did.
        ensures well { result.failed ≡ business.failed }
    {
        Responder {
            failed: business.is_failed(),
            business,
            answers: String::new(alloc),
        }
    }

    /// Whether it found no memory.
    pub fn is_failed(&self) -> bool
        ensures { result ≡ self.now.failed }
    {
        self.failed
    }

    // Takes an event through the accounts, and answers it.
    fn respond(&mut self, event: Event) -> Result<(), AllocError>
        ensures answered { OnOk result (Answered event self.old self.new) }
        ensures failed { self.new.failed ≡ self.old.failed }
    {
        let movement = Operation::of(event).movement;
        let s = self.business.count();
        let refused = self.business.refuses(movement);
        self.business.book(event)?;
        let balance = self.business.balance(account_of(movement));
        push_answer(&mut self.answers, s, refused, balance)
    }

    /// The answers to the events that it was shown since it was made or last cleared. Of one that
    /// failed they are not to be used.
    pub fn answers(&self) -> &str
        // They are the text that it holds.
        ensures text { result.now ≡ string_bytes self.now.answers }
        // Behind the answers to events before these, they are the answers to all.
        ensures all { (first : Responder) (past before events : List Event) (s : ℕ) (end : Bool) → IsResponderOf first (past ++ before) [] → GoesThrough answering first (showings events s end) self.now → self.now.failed ≡ false → answers_to past before ++ result.now ≡ answers_to past (before ++ events) }
    {
        self.answers.as_str()
    }

    /// Forgets the answers, which were taken: the next one goes on from them.
    pub fn clear(&mut self)
        // Its accounts stay those of all events, and it has no answer yet.
        ensures cleared { (past events : List Event) → IsResponderOf self.old past events → IsResponderOf self.new (past ++ events) [] }
        // Whether it failed stays.
        ensures failed { self.new.failed ≡ self.old.failed }
    {
        self.answers.clear();
    }
}

impl Handler<Event> for Responder {
    ghost use Rattle.dr_accounts.specs.Responding.{Answers};

    ghost goes = { λ old event s end new. Answers old event new };

    fn on_event(&mut self, event: Event, _s: u64, _end: bool) {
        if self.failed {
            return;
        }
        if self.respond(event).is_err() {
            self.failed = true;
        }
    }
}
