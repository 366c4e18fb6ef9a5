//! What each kind of step tells. These types are for the proofs alone.

ghost use Rattle.dr_plain.specs.Inside.Seats.{Loads, Stores, SenderLookedAtCount, SenderLookedAtHalt, SenderPublished, SenderHalted, SenderClosed, ReceiverLookedAtClosed, ReceiverLookedAtCursor, ReceiverLookedAtCount, ReceiverCompleted, HalterHalted, HalterLooked, receiver_of};
ghost use Rattle.dr_lent.specs.Events.{events_of};
ghost use Rattle.dr_plain.specs.declared.record.Step.TheVariants.{SenderPublishes, SenderHalts, SenderCloses, ReceiverCompletes, HalterHalts};

use crate::record::View;
use atomic_table::Play;
use dr_cells::Token;
use dr_lent::Lends;
use dr_runs::Names;
use std::marker::PhantomData;

pub struct LookAtFinal;

impl<T> Play<Token<T>, View<T>> for LookAtFinal {
    ghost then = { Loads SenderLookedAtCount };
}

pub struct LookAtHalt<J> {
    named: PhantomData<J>,
}

impl<T, J: Names> Play<Token<T>, View<T>> for LookAtHalt<J> {
    ghost then = { Loads (SenderLookedAtHalt J.number) };
}

pub struct Publish<J> {
    lent: PhantomData<J>,
}

impl<T, J: Lends<T>> Play<Token<T>, View<T>> for Publish<J> {
    ghost then = { Stores (λ _ _. SenderPublishes (events_of J.lents)) (SenderPublished J.lents) };
}

pub struct SenderHalt;

impl<T> Play<Token<T>, View<T>> for SenderHalt {
    ghost then = { Stores (λ _ _. SenderHalts) SenderHalted };
}

pub struct Close;

impl<T> Play<Token<T>, View<T>> for Close {
    ghost then = { Stores (λ _ _. SenderCloses) SenderClosed };
}

pub struct LookAtClosed;

impl<T> Play<Token<T>, View<T>> for LookAtClosed {
    ghost then = { Loads ReceiverLookedAtClosed };
}

pub struct LookAtCursor<J> {
    named: PhantomData<J>,
}

impl<T, J: Names> Play<Token<T>, View<T>> for LookAtCursor<J> {
    ghost then = { Loads (ReceiverLookedAtCursor J.number) };
}

pub struct LookAtUpstream<J> {
    named: PhantomData<J>,
}

impl<T, J: Names> Play<Token<T>, View<T>> for LookAtUpstream<J> {
    ghost then = { Loads (ReceiverLookedAtCount J.number) };
}

pub struct Complete;

impl<T> Play<Token<T>, View<T>> for Complete {
    ghost then = { Stores (λ me n. ReceiverCompletes (receiver_of me.0).number n) ReceiverCompleted };
}

pub struct Halt;

impl<T> Play<Token<T>, View<T>> for Halt {
    ghost then = { Stores (λ _ _. HalterHalts) HalterHalted };
}

pub struct LookAround;

impl<T> Play<Token<T>, View<T>> for LookAround {
    ghost then = { Loads HalterLooked };
}
