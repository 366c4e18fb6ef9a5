//! What ends that are dropped leave in their ring, for when no end is there any more.

use crate::laws::{RingSeat, Words};
use dr_cells::{Strip, Token};
use dr_places::Belongs;
use dr_runs::{HandlerCounts, Written};
use dr_seq::GateCache;
use std::marker::Model;

/// What a sender leaves: all that it has but the ring.
#[derive(Drop)]
pub struct SenderLeft<T> {
    pub(crate) seat: RingSeat<T>,
    pub(crate) claimed: u64,
    pub(crate) published: u64,
    pub(crate) gate: GateCache,
    pub(crate) written: Written,
    pub(crate) tokens: Vec<Token<T>>,
    pub(crate) counts: Vec<HandlerCounts>,
    pub(crate) hands: Vec<Vec<Token<T>>>,
    pub(crate) strip: Strip<T>,
}

impl<T> Model for SenderLeft<T> {
    ghost use Rattle.std.specs.Prelude.{length};
    ghost use Rattle.dr_runs.specs.Seats.{end_of};
    ghost use Rattle.dr_lent.specs.Rows.{cells_of};
    ghost use Rattle.dr_plain.specs.Calls.Ends.{SenderEnd};
    ghost use Rattle.dr_plain.specs.Inside.Fits.{SenderFits};
    ghost use Rattle.dr_plain.specs.Inside.Seats.{IsSender};
    ghost use Rattle.dr_plain.specs.Inside.Stations.{sender_stand};
    ghost use Rattle.dr_plain.specs.Inside.Views.{sender_end};

    ghost Value = { SenderEnd T };

    ghost view = { λ s. sender_end (sender_stand s.seat.table_id s.seat.me) s.written (cells_of s.tokens.items) };

    ghost invariant = { λ s. IsSender (end_of s.seat.me) × SenderFits (sender_stand s.seat.table_id s.seat.me) (record { claimed_to = s.claimed; published_to = s.published; remembered = s.gate; written = s.written; tokens = s.tokens.items; rooms = s.counts.items; hands = length s.hands.items; strip = s.strip.cells.ptr; cells = s.strip.len }) };
}

impl<T> Belongs<Words<T>> for SenderLeft<T> {
    ghost use Rattle.dr_plain.specs.Inside.Leaving.{BelongsSender};

    ghost belongs = { λ words _ e. BelongsSender words.table_id words.key e };
}

/// What a receiver leaves.
#[derive(Drop)]
pub struct ReceiverLeft<T> {
    pub(crate) seat: RingSeat<T>,
    pub(crate) taken: u64,
    pub(crate) completed: u64,
    pub(crate) parts: Vec<Token<T>>,
}

impl<T> Model for ReceiverLeft<T> {
    ghost use Rattle.dr_runs.specs.Seats.{end_of};
    ghost use Rattle.dr_plain.specs.Calls.Ends.{ReceiverEnd};
    ghost use Rattle.dr_plain.specs.Inside.Fits.{ReceiverFits};
    ghost use Rattle.dr_plain.specs.Inside.Seats.{IsReceiver};
    ghost use Rattle.dr_plain.specs.Inside.Stations.{receiver_stand};
    ghost use Rattle.dr_plain.specs.Inside.Views.{receiver_end};

    ghost Value = { ReceiverEnd T };

    ghost view = { λ s. receiver_end (receiver_stand s.seat.table_id s.seat.me) };

    ghost invariant = { λ s. IsReceiver (end_of s.seat.me) × ReceiverFits (receiver_stand s.seat.table_id s.seat.me) s.taken s.completed s.parts.items };
}

impl<T> Belongs<Words<T>> for ReceiverLeft<T> {
    ghost use Rattle.dr_plain.specs.Inside.Leaving.{BelongsReceiver};

    ghost belongs = { λ words place e. BelongsReceiver words.table_id place e };
}

/// What a halter leaves.
#[derive(Drop)]
pub struct HalterLeft<T> {
    pub(crate) seat: RingSeat<T>,
}

impl<T> Model for HalterLeft<T> {
    ghost use Rattle.dr_runs.specs.Seats.{end_of};
    ghost use Rattle.dr_plain.specs.Calls.Ends.{HalterEnd};
    ghost use Rattle.dr_plain.specs.Inside.Seats.{IsHalter};
    ghost use Rattle.dr_plain.specs.Inside.Stations.{halter_end};

    ghost Value = { HalterEnd T };

    ghost view = { λ s. halter_end s.seat.table_id s.seat.me };

    ghost invariant = { λ s. IsHalter (end_of s.seat.me) };
}

impl<T> Belongs<Words<T>> for HalterLeft<T> {
    ghost use Rattle.dr_plain.specs.Inside.Leaving.{BelongsHalter};

    ghost belongs = { λ words _ e. BelongsHalter words.table_id e };
}
