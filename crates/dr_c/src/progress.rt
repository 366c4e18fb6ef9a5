//! How far an end came.

ghost use Rattle.dr_c.specs.Calls.{TellsBy};

use crate::end::End;
use crate::numbers::WRONG_END;

/// How far an end came, by its own calls.
#[repr(C)]
#[derive(Drop)]
pub struct Counts {
    /// How many sequences a sender claimed, or how many events a receiver took.
    pub begun: u64,
    /// How many events a sender published, or a receiver completed.
    pub done: u64,
}

/// Tells how far an end came.
pub fn tell(end: &End, counts: &mut Counts) -> u32
    ensures { TellsBy end.now counts.old counts.new result }
{
    let (begun, done) = match end {
        End::Sender(sender) => (sender.claimed(), sender.published()),
        End::Receiver(receiver) => (receiver.taken(), receiver.completed()),
        End::ReceiverOfSeveral(receiver) => (receiver.taken(), receiver.completed()),
        End::SenderOfBytes(writer) => (writer.sender.claimed(), writer.sender.published()),
        End::ReceiverOfBytes(receiver) => (receiver.taken(), receiver.completed()),
        _ => return WRONG_END,
    };
    *counts = Counts { begun, done };
    0
}
