//! What an event of the replay says: a producer moves an amount between accounts.

ghost use Rattle.std.specs.Prelude.{◌≡◌};
ghost use Rattle.dr_operations.specs.Operations.{IsOperation, event_for as event_in, operation_of as operation_in, producer_of as producer_in};

use dr_seq::Event;

/// What is done to accounts.
#[derive(Clone, Copy, Debug, PartialEq, Eq)]
pub enum Movement {
    /// The amount is added to the account's balance.
    Deposit { account: u16, amount: u32 },
    /// The amount is taken from the account, where its balance is that much.
    Withdraw { account: u16, amount: u32 },
    /// The amount is taken from one account and added to another, where the first has that much.
    Transfer { from: u16, to: u16, amount: u64 },
}

/// A movement with the number of its producer.
#[derive(Clone, Copy, Debug, PartialEq, Eq)]
pub struct Operation {
    pub producer: u8,
    pub movement: Movement,
}

/// The place of the producer in the first word of an event.
const PRODUCER: u64 = 1 << 56;

/// The place of the movement's code in the first word.
const CODE: u64 = 1 << 48;

/// The place of the account in the first word.
const ACCOUNT: u64 = 1 << 32;

/// The place of a transfer's second account in the second word.
const TO: u64 = 1 << 48;

const DEPOSIT: u64 = 1;

const WITHDRAW: u64 = 2;

const TRANSFER: u64 = 3;

/// The producer of the operation that an event carries.
pub fn producer_of(event: Event) -> u8
    ensures { result ≡ producer_in event }
{
    (event.first / PRODUCER) as u8
}

impl Operation {
    /// The event that carries an operation. The places in its words are this project's own.
    pub fn event(self) -> Event
        requires { IsOperation self }
        // The event carries the operation, and gives it back.
        ensures event { result ≡ event_in self }
        ensures back { operation_in result ≡ self }
    {
        let producer = self.producer as u64 * PRODUCER;
        match self.movement {
            Movement::Deposit { account, amount } => Event {
                first: producer + DEPOSIT * CODE + account as u64 * ACCOUNT + amount as u64,
                second: 0,
            },
            Movement::Withdraw { account, amount } => Event {
                first: producer + WITHDRAW * CODE + account as u64 * ACCOUNT + amount as u64,
                second: 0,
            },
            Movement::Transfer { from, to, amount } => Event {
                first: producer + TRANSFER * CODE + from as u64 * ACCOUNT,
                second: to as u64 * TO + amount,
            },
        }
    }

    /// The operation that an event carries. A code that no file gives reads as a deposit.
    pub fn of(event: Event) -> Operation
        ensures { result ≡ operation_in event }
    {
        let producer = producer_of(event);
        let account = (event.first / ACCOUNT % 65536) as u16;
        let amount = event.first % ACCOUNT;
        let movement = match event.first / CODE % 256 {
            WITHDRAW => Movement::Withdraw {
                account,
                amount: amount as u32,
            },
            TRANSFER => Movement::Transfer {
                from: account,
                to: (event.second / TO % 65536) as u16,
                amount: event.second % TO,
            },
            _ => Movement::Deposit {
                account,
                amount: amount as u32,
            },
        };
        Operation { producer, movement }
    }
}
