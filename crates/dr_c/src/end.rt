//! What a handle has.

use crate::bytes::Bytes;
use crate::one_of_several::OneOfSeveral;
use crate::writer::Writer;
use dr_ring::{Halter, Receiver, Sender};
use dr_seq::Event;

/// An end of a ring of one sender, of several, or of bytes.
#[derive(Drop)]
pub enum End {
    Sender(Sender),
    Receiver(Receiver),
    Halter(Halter),
    SenderOfSeveral(OneOfSeveral),
    ReceiverOfSeveral(dr_plain_senders::Receiver<Event>),
    HalterOfSeveral(dr_plain_senders::Halter<Event>),
    SenderOfBytes(Writer),
    ReceiverOfBytes(dr_plain::Receiver<Bytes>),
    HalterOfBytes(dr_plain::Halter<Bytes>),
}
