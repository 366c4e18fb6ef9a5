//! Operations in the words of the event file.

ghost use Rattle.std.specs.Prelude.{◌≡◌, ◌++◌, Ok, OnOk, decimal, string_bytes};
ghost use Rattle.dr_operations.specs.EventFile.{events_of};
ghost use Rattle.dr_operations.specs.Operations.{movement_text, operation_text};
ghost use Rattle.dr_operations.specs.Written.{AreOfFile, file_of};

use crate::operation::{Movement, Operation};
use dr_seq::Event;
use itoa::Buffer;
use std::alloc::AllocError;

/// Adds a number in decimal digits.
pub fn push_number(text: &mut String, number: u64) -> Result<(), AllocError>
    ensures { OnOk result (string_bytes text.new ≡ string_bytes text.old ++ decimal number) }
{
    let mut buffer = Buffer::new();
    text.push_str(buffer.format(number))
}

// Adds a text, and then a number.
fn push_field(text: &mut String, before: &str, number: u64) -> Result<(), AllocError>
    ensures { OnOk result (string_bytes text.new ≡ string_bytes text.old ++ before.now ++ decimal number) }
{
    text.push_str(before)?;
    push_number(text, number)
}

fn push_movement(text: &mut String, movement: Movement) -> Result<(), AllocError>
    ensures { OnOk result (string_bytes text.new ≡ string_bytes text.old ++ movement_text movement) }
{
    match movement {
        Movement::Deposit { account, amount } => {
            push_field(text, "deposit,", account as u64)?;
            push_field(text, ",", amount as u64)
        }
        Movement::Withdraw { account, amount } => {
            push_field(text, "withdraw,", account as u64)?;
            push_field(text, ",", amount as u64)
        }
        Movement::Transfer { from, to, amount } => {
            push_field(text, "transfer,", from as u64)?;
            push_field(text, ",", to as u64)?;
            push_field(text, ",", amount)
        }
    }
}

/// Adds the record of an operation, without its line's end.
pub fn push_operation(text: &mut String, operation: Operation) -> Result<(), AllocError>
    ensures { OnOk result (string_bytes text.new ≡ string_bytes text.old ++ operation_text operation) }
{
    push_number(text, operation.producer as u64)?;
    text.push_str(",")?;
    push_movement(text, operation.movement)
}

/// Adds the event file of events: a line for the operation of each. It reads as these events.
pub fn push_event_file(text: &mut String, events: &[Event]) -> Result<(), AllocError>
    // The lines are added behind the text, and events such as a file can say are read back from them.
    ensures file { OnOk result (string_bytes text.new ≡ string_bytes text.old ++ file_of events.now) }
    ensures back { AreOfFile events.now → events_of (file_of events.now) ≡ Ok events.now }
{
    for event in events {
        push_operation(text, Operation::of(*event))?;
        text.push_str("\n")?;
    }
    Ok(())
}
