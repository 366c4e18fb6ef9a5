//! Handlers of two types in one list.

ghost use Rattle.dr_disruptor.specs.OneOf.{goes_as_one_of};

use dr_meaning::InPlaceHandler;

/// A handler of one of two types, so that one list may have both. For three types put one into
/// another: `OneOf<A, OneOf<B, C>>`.
#[derive(Drop)]
pub enum OneOf<A, B> {
    First(A),
    Second(B),
}

impl<E, A: InPlaceHandler<E>, B: InPlaceHandler<E>> InPlaceHandler<E> for OneOf<A, B> {
    ghost goes = { goes_as_one_of A.goes B.goes };

    fn on_event_in_place(&mut self, event: &E, s: u64, end: bool) {
        match self {
            OneOf::First(handler) => handler.on_event_in_place(event, s, end),
            OneOf::Second(handler) => handler.on_event_in_place(event, s, end),
        }
    }
}
