//! The calls that were made through an end, and the events that they handed out.

use dr_meaning::{Command, Reply};
use std::snapshot::Snapshot;

/// A call through an end, kept or not: a command with the reply that it got, or none where memory ran
/// out.
#[derive(Clone, Copy)]
pub struct Call<E> {
    pub command: Command<E>,
    pub reply: Option<Reply>,
}

/// All events that an end was handed, which only contracts see: none, or those before the last one, and
/// that.
#[derive(Drop)]
pub(crate) enum Given<E> {
    Nothing,
    More(Snapshot<Given<E>>, E),
}

/// All calls so far, which only contracts see: none, or those before the last one, and that.
#[derive(Drop)]
pub(crate) enum Past<E> {
    Unused,
    After(Snapshot<Past<E>>, Call<E>),
}
