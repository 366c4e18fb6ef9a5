//! The events of an event file that comes as a stream.

ghost use Rattle.std.specs.Prelude.{◌≡◌, ◌+◌, ◌<◌, ◌-◌, ◌^◌, ◌∷◌, [], List, OnOk, flat_map, ℕ};
ghost use Rattle.csv.specs.Records.{fields_of};
ghost use Rattle.dr_files.specs.Counting.{faults_of, inner_of};
ghost use Rattle.dr_files.specs.Outcome.{CountsFaults};
ghost use Rattle.dr_operations.specs.Arriving.{Pushes};
ghost use Rattle.dr_operations.specs.EventFile.{events_of};
ghost use Rattle.dr_operations.specs.Reading.{FileIs};
ghost use Rattle.dr_operations.specs.Written.{AreOfFile};
ghost use Rattle.dr_records.specs.Stream.{record_in};

use crate::cause::Cause;
use crate::event_file::operation_of;
use csv::ByteRecord;
use dr_files::{Counted, FileFault};
use dr_records::Stream;
use dr_seq::Event;
use std::alloc::{AllocError, Global};
use std::io::Read;

/// Makes events of the operations of an event file as its bytes come, in any pieces: of each record
/// once it is whole, by the rules by which a file is read. It holds what came of one record, however
/// many events there are. After an error it is of no more use.
#[derive(Drop)]
pub struct EventStream {
    records: Stream,
    // How many events it gave.
    count: u64,
}

// Adds the event of the `k`-th record.
fn push_event(events: &mut Vec<Event>, row: &ByteRecord, k: u64) -> Result<(), FileFault<Cause>>
    ensures pushes { Pushes result k (fields_of row.now) events.old.items events.new.items }
    ensures filed { AreOfFile events.old.items → AreOfFile events.new.items }
{
    let Some(operation) = operation_of(row) else {
        let cause = Cause::BadRecord;
        return Err(FileFault::Input { k, cause });
    };
    events.push(operation.event())?;
    Ok(())
}

impl EventStream {
    ghost use Rattle.dr_operations.specs.Arriving.{Feeds, Finishes, ReadsOn, read_of, to_come};

    /// A stream of which no byte came yet.
    pub fn new(alloc: Global) -> EventStream
        // What it is to give is what the bytes that come say.
        ensures { (text : List ℕ) → read_of (to_come result text) ≡ events_of text }
    {
        EventStream {
            records: Stream::new(alloc),
            count: 0,
        }
    }

    // Adds the event of the record that was read last.
    fn push(&mut self, events: &mut Vec<Event>) -> Result<(), FileFault<Cause>>
        ensures pushes { Pushes result (self.old.count + 1) (record_in self.old.records) events.old.items events.new.items }
        ensures counted { OnOk result (self.new.count ≡ self.old.count + 1) }
        ensures records { self.new.records ≡ self.old.records }
        ensures filed { AreOfFile events.old.items → AreOfFile events.new.items }
    {
        let k = self.count.checked_add(1).ok_or(AllocError)?;
        self.count = k;
        push_event(events, self.records.last(), k)
    }

    // Takes the next byte.
    fn take(&mut self, byte: u8, events: &mut Vec<Event>) -> Result<(), FileFault<Cause>>
        ensures feeds { Feeds result self.old self.new (byte ∷ []) events.old.items events.new.items }
        ensures filed { AreOfFile events.old.items → AreOfFile events.new.items }
    {
        let found = self.records.take(byte)?;
        if found {
            return self.push(events);
        }
        Ok(())
    }

    /// Takes the next piece, and adds the event of each record that is whole now. An error is the
    /// first bad record, counted from the stream's start, or that memory ran out.
    pub fn feed(&mut self, piece: &[u8], events: &mut Vec<Event>) -> Result<(), FileFault<Cause>>
        // What is given, and then what is yet to come, is what was to come; a bad record ends it.
        ensures feeds { Feeds result self.old self.new piece.now events.old.items events.new.items }
        // If all events before are such as a file can say, all after are.
        ensures filed { AreOfFile events.old.items → AreOfFile events.new.items }
    {
        for byte in piece {
            self.take(*byte, events)?;
        }
        Ok(())
    }

    /// Ends the stream, and adds the event of a last record, which needs no line's end. Errors are
    /// those of `feed`.
    pub fn finish(&mut self, events: &mut Vec<Event>) -> Result<(), FileFault<Cause>>
        // All that was to come is given, up to a bad record or until memory runs out.
        ensures finishes { Finishes result self.old events.old.items events.new.items }
        // If all events before are such as a file can say, all after are.
        ensures filed { AreOfFile events.old.items → AreOfFile events.new.items }
    {
        let found = self.records.end()?;
        if found {
            return self.push(events);
        }
        Ok(())
    }

    /// Reads once, and takes what came. Answers whether more may come: at the reader's end the stream
    /// is finished. A read that fails adds nothing.
    pub fn read<R: Read>(
        &mut self,
        reader: &mut Counted<R>,
        events: &mut Vec<Event>,
    ) -> Result<bool, FileFault<Cause>>
        requires { faults_of reader.old < 2 ^ 64 - 1 }
        // If the bytes are known, some came, or all did and it ended, or the read failed and nothing came.
        ensures read { ReadsOn result self.old self.new (R.remaining (inner_of reader.old)) (R.remaining (inner_of reader.new)) events.old.items events.new.items }
        // A failed read is answered where one failed, and nowhere else.
        ensures counted { CountsFaults result (faults_of reader.old) (faults_of reader.new) 0 0 }
        // If all events before are such as a file can say, all after are.
        ensures filed { AreOfFile events.old.items → AreOfFile events.new.items }
    {
        let mut piece = [0u8; 16384];
        match reader.read(&mut piece) {
            Ok(0) => {
                self.finish(events)?;
                Ok(false)
            }
            Ok(count) => {
                self.feed(&piece[..count], events)?;
                Ok(true)
            }
            Err(_) => Err(FileFault::Read),
        }
    }
}

/// The events of an event file that comes in these pieces: however it is cut, those of the whole file.
pub fn events_of_pieces(alloc: Global, pieces: &[Vec<u8>]) -> Result<Vec<Event>, FileFault<Cause>>
    ensures { FileIs result (events_of (flat_map (λ piece. piece.items) pieces.now)) }
{
    let mut stream = EventStream::new(alloc);
    let mut events = Vec::new(alloc);
    for piece in pieces {
        stream.feed(piece.as_slice(), &mut events)?;
    }
    stream.finish(&mut events)?;
    Ok(events)
}
