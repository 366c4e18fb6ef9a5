//! The numbers that C is told.

ghost use Rattle.std.specs.Prelude.{◌≡◌};
ghost use Rattle.dr_c.specs.Numbers.{told};

use dr_meaning::Refusal;

/// There is no handler of that number.
pub const NO_HANDLER: u32 = 12;
/// The handle is zero or closed.
pub const NOT_OPEN: u32 = 61;
/// The handle has another end than the call is of.
pub const WRONG_END: u32 = 62;
/// A pointer is null, or an array is not as long as it was said to be.
pub const BAD_POINTER: u32 = 65;
/// There are not as many bytes as an event has.
pub const BAD_LENGTH: u32 = 66;
/// The receiver did not take the event, or completed it.
pub const NOT_IN_HAND: u32 = 67;

/// 0, or the number of a refusal.
pub fn number(answer: Result<(), Refusal>) -> u32
    ensures { result ≡ told answer }
{
    match answer {
        Ok(()) => 0,
        Err(refusal) => refusal.number(),
    }
}
