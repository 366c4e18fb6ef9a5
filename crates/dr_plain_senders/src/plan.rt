//! What a ring is made for, and the places of its words and slots.

ghost use Rattle.std.specs.Prelude.{◌≡◌, ◌+◌, ◌-◌, ◌^◌, ◌<◌, ◌≤◌, map, if◌then◌else◌, IfOk};
ghost use Rattle.std.specs.Int.{bit_not, w64};
ghost use Rattle.dr_graph.specs.Meaning.Graph.{upstreams_of, finals as finals_of};
ghost use Rattle.dr_plain_senders.specs.Meaning.Shape.{handlers_of};
ghost use Rattle.dr_plain_senders.specs.Meaning.Words.{count_word as count_word_of, mark_word as mark_word_of, mark_bit as mark_bit_of, in_word as in_word_of, marked_from, words_of, lanes_of, slot_of, slots_of};
ghost use Rattle.dr_plain_senders.specs.Calls.Plans.{IsPlan};

use dr_cells::Cells;
use dr_graph::Graph;
use dr_runs::copy_upstreams;
use dr_seq::Size;
use std::alloc::{AllocError, Global};
use std::marker::Model;
use std::snapshot::Snapshot;

/// The place of the word that counts the claimed sequences, and has the halt bit.
pub const CLAIM_WORD: usize = 0;
/// The bit of the claim word that is set once the ring is halted.
pub const HALT_BIT: u64 = 9223372036854775808;

/// The place of the word that counts what a handler completed.
pub fn count_word(handler: usize) -> usize
    requires { handler < 65536 }
    ensures { result ≡ count_word_of handler }
{
    16 + 16 * handler
}

// A word as it is, or with each bit flipped.
fn set_where(as_is: bool, word: u64) -> u64
    ensures { result ≡ (if as_is then word else bit_not w64 word) }
{
    if as_is { word } else { !word }
}

/// The graph of a ring's handlers, by each handler's direct upstreams, with its final handlers, the
/// size, the limit of sequences, how many senders there are, the numbers of words and of slots, the
/// cells of its events, and, in contracts alone, the events with which it begins.
#[derive(Drop)]
pub struct Plan<T> {
    size: Size,
    limit: u64,
    senders: usize,
    words: usize,
    slots: usize,
    upstreams: Vec<Vec<usize>>,
    finals: Vec<usize>,
    cells: Cells<T>,
    begun: Snapshot<Vec<T>>,
}

impl<T> Model for Plan<T> {
    ghost use Rattle.std.specs.Prelude.{map};
    ghost use Rattle.dr_plain_senders.specs.Meaning.Shape.{Shape};
    ghost use Rattle.dr_plain_senders.specs.Inside.Plans.{PlanFits};

    ghost Value = { Shape T };

    ghost view = { λ p. record { upstreams = map (λ v. v.items) p.upstreams.items; size = p.size; limit = p.limit; senders = p.senders; strip = p.cells.ptr; begun = p.begun.value.items } };

    ghost invariant = { λ p. PlanFits (record { upstreams = map (λ v. v.items) p.upstreams.items; size = p.size; limit = p.limit; senders = p.senders; strip = p.cells.ptr; begun = p.begun.value.items }) p.finals.items p.words p.slots };
}

impl<T> Plan<T> {
    /// The plan of a ring for a graph, which it copies.
    pub(crate) fn of(
        alloc: Global,
        graph: &Graph,
        size: Size,
        limit: u64,
        senders: usize,
        cells: Cells<T>,
        begun: Snapshot<Vec<T>>,
    ) -> Result<Plan<T>, AllocError>
        requires limit { (0 < limit) × (limit ≤ 2 ^ 62) }
        requires senders { (0 < senders) × (senders ≤ 16) }
        ensures made { IfOk result (λ plan. plan ≡ record { upstreams = graph.now.upstreams; size = size; limit = limit; senders = senders; strip = cells.ptr; begun = begun.value.items }) }
        ensures plan { IfOk result (λ plan. IsPlan plan) }
    {
        let upstreams = copy_upstreams(alloc, graph)?;
        let finals = Vec::from_slice(alloc, graph.finals())?;
        let count = size.get() as usize;
        let words = 16 + 16 * graph.len() + (count + 63) / 64;
        let slots = (1 + graph.len()) * count;
        Ok(Plan {
            size,
            limit,
            senders,
            words,
            slots,
            upstreams,
            finals,
            cells,
            begun,
        })
    }

    /// How many cells the ring has.
    pub fn size(&self) -> Size
        ensures { result ≡ self.now.size }
    {
        self.size
    }

    /// How many sequences may be claimed in all.
    pub fn limit(&self) -> u64
        // It is the greatest number of claimed sequences, which is at most 2^62.
        ensures limit { result ≡ self.now.limit }
        ensures small { result ≤ 2 ^ 62 }
    {
        self.limit
    }

    /// How many handlers there are.
    pub fn handlers(&self) -> usize
        // It is the number of handlers, of which there are at most 16.
        ensures count { result ≡ handlers_of self.now }
        ensures few { result ≤ 16 }
    {
        self.upstreams.len()
    }

    /// How many senders there are.
    pub fn senders(&self) -> usize
        // It is the number of senders, of which there are at most 16.
        ensures count { result ≡ self.now.senders }
        ensures few { result ≤ 16 }
    {
        self.senders
    }

    /// The direct upstreams of a handler.
    pub fn upstreams(&self, handler: usize) -> &[usize]
        requires { handler < handlers_of self.now }
        ensures { result.now ≡ upstreams_of self.now.upstreams handler }
    {
        self.upstreams[handler].as_slice()
    }

    /// The final handlers, which gate the senders.
    pub fn finals(&self) -> &[usize]
        ensures { result.now ≡ finals_of self.now.upstreams }
    {
        self.finals.as_slice()
    }

    /// Where the events lie.
    pub fn cells(&self) -> Cells<T>
        ensures { result.ptr ≡ self.now.strip }
    {
        self.cells
    }

    /// The place of the word that has the mark in a sequence's cell.
    pub fn mark_word(&self, sequence: u64) -> usize
        // It is the place of the word with the sequence's mark, which is one of the ring's words.
        ensures place { result ≡ mark_word_of self.now sequence }
        ensures inside { result < words_of self.now }
    {
        16 + 16 * self.upstreams.len() + self.size.slot(sequence) / 64
    }

    /// The bit of that word that is the mark.
    fn mark_bit(&self, sequence: u64) -> u32
        ensures bit { result ≡ mark_bit_of self.now sequence }
        ensures inside { result < 64 }
    {
        (self.size.slot(sequence) % 64) as u32
    }

    /// How many sequences from one on have their marks in the same word, one after the other.
    pub fn in_word(&self, sequence: u64) -> u64
        // As many as bits are left in the word and cells in the ring, from the sequence's on: 1 to 64.
        ensures count { result ≡ in_word_of self.now sequence }
        ensures some { 0 < result }
        ensures few { result ≤ 64 }
    {
        let left = self.size.get() - self.size.slot(sequence) as u64;
        let bits = 64 - self.mark_bit(sequence) as u64;
        bits.min(left)
    }

    /// The bits of so many marks from that of a sequence on, which are in one word.
    pub fn mark_bits(&self, sequence: u64, count: u64) -> u64
        requires { (0 < count) × (count ≤ in_word_of self.now sequence) }
        ensures { result ≡ 2 ^ (mark_bit_of self.now sequence + count) - 2 ^ mark_bit_of self.now sequence }
    {
        let ones = u64::MAX >> (64 - count) as u32;
        ones << self.mark_bit(sequence)
    }

    /// How many sequences from one on are published, one after the other, as far as the word tells
    /// that has the mark of the first, and was found so.
    pub fn marked(&self, sequence: u64, found: u64) -> u64
        // As many as have their marks in this word, up to the first that has not: at most 64.
        ensures count { result ≡ marked_from self.now sequence found }
        ensures few { result ≤ 64 }
    {
        let is_even = self.size.round(sequence) % 2 == 0;
        let there = set_where(is_even, found);
        let run = (there >> self.mark_bit(sequence)).trailing_ones() as u64;
        run.min(self.in_word(sequence))
    }

    /// How many words the ring has.
    pub fn words(&self) -> usize
        ensures { result ≡ words_of self.now }
    {
        self.words
    }

    /// The slot of a lane for a sequence.
    pub fn slot(&self, lane: usize, sequence: u64) -> usize
        requires { lane < lanes_of self.now }
        // It is the place of the sequence's cell in this lane, which is one of the ring's slots.
        ensures place { result ≡ slot_of self.now lane sequence }
        ensures inside { result < slots_of self.now }
    {
        lane * self.size.get() as usize + self.size.slot(sequence)
    }

    /// How many slots the ring has in all its lanes.
    pub fn slots(&self) -> usize
        ensures { result ≡ slots_of self.now }
    {
        self.slots
    }
}
