//! The commands of a file, one a record.

ghost use Rattle.std.specs.Prelude.{◌≡◌};
ghost use Rattle.csv.specs.Records.{fields_of};
ghost use Rattle.dr_drive.specs.Meaning.Commands.{claim as claim_in, command_of as command_in, complete as complete_in, handler_of as handler_in, poll as poll_in, publish as publish_in, retire as retire_in, write_one as write_one_in, write_two as write_two_in};

use csv::ByteRecord;
use dr_graph::Graph;
use dr_meaning::Command;
use dr_records::{field, is_record, number_at};
use dr_seq::Event;

/// No batch is longer than the greatest ring, so a greater `MAX` is read as this one.
const GREATEST_BATCH: u64 = 65536;

// The number of a handler by its name: the number of handlers, which no handler has, where it is the name of none.
fn handler_of(graph: &Graph, name: &[u8]) -> usize
    ensures { result ≡ handler_in graph.now.names name.now }
{
    for h in 0..graph.len() {
        if name == graph.name(h).as_bytes() {
            return h;
        }
    }
    graph.len()
}

fn claim(row: &ByteRecord) -> Option<Command<Event>>
    ensures { result ≡ claim_in (fields_of row.now) }
{
    let p = number_at(row, 1)?;
    let n = number_at(row, 2)?;
    Some(Command::Claim { p, n })
}

// A `write` of four fields: the second word of its event is 0.
fn write_one(row: &ByteRecord) -> Option<Command<Event>>
    ensures { result ≡ write_one_in (fields_of row.now) }
{
    let p = number_at(row, 1)?;
    let s = number_at(row, 2)?;
    let first = number_at(row, 3)?;
    let v = Event { first, second: 0 };
    Some(Command::Write { p, s, v })
}

// A `write` of five fields.
fn write_two(row: &ByteRecord) -> Option<Command<Event>>
    ensures { result ≡ write_two_in (fields_of row.now) }
{
    let p = number_at(row, 1)?;
    let s = number_at(row, 2)?;
    let first = number_at(row, 3)?;
    let second = number_at(row, 4)?;
    let v = Event { first, second };
    Some(Command::Write { p, s, v })
}

fn publish(row: &ByteRecord) -> Option<Command<Event>>
    ensures { result ≡ publish_in (fields_of row.now) }
{
    let p = number_at(row, 1)?;
    let lo = number_at(row, 2)?;
    let hi = number_at(row, 3)?;
    Some(Command::Publish { p, lo, hi })
}

fn poll(graph: &Graph, row: &ByteRecord) -> Option<Command<Event>>
    ensures { result ≡ poll_in graph.now.names (fields_of row.now) }
{
    let max = number_at(row, 2)?.min(GREATEST_BATCH) as usize;
    let h = handler_of(graph, field(row, 1));
    Some(Command::Poll { h, max })
}

fn complete(graph: &Graph, row: &ByteRecord) -> Option<Command<Event>>
    ensures { result ≡ complete_in graph.now.names (fields_of row.now) }
{
    let upto = number_at(row, 2)?;
    let h = handler_of(graph, field(row, 1));
    Some(Command::Complete { h, upto })
}

fn retire(graph: &Graph, row: &ByteRecord) -> Option<Command<Event>>
    ensures { result ≡ retire_in graph.now.names (fields_of row.now) }
{
    let h = handler_of(graph, field(row, 1));
    Some(Command::Retire { h })
}

/// The command of a record, if it is one, where these are the handlers.
pub fn command_of(graph: &Graph, row: &ByteRecord) -> Option<Command<Event>>
    ensures { result ≡ command_in graph.now.names (fields_of row.now) }
{
    if is_record(row, b"claim".as_slice(), 3) {
        claim(row)
    } else if is_record(row, b"write".as_slice(), 4) {
        write_one(row)
    } else if is_record(row, b"write".as_slice(), 5) {
        write_two(row)
    } else if is_record(row, b"publish".as_slice(), 4) {
        publish(row)
    } else if is_record(row, b"poll".as_slice(), 3) {
        poll(graph, row)
    } else if is_record(row, b"complete".as_slice(), 3) {
        complete(graph, row)
    } else if is_record(row, b"halt".as_slice(), 1) {
        Some(Command::Halt)
    } else if is_record(row, b"retire".as_slice(), 2) {
        retire(graph, row)
    } else {
        None
    }
}
