//! The records of a text, one at a time.

ghost use Rattle.std.specs.Prelude.{◌≡◌, true};
ghost use Rattle.std.specs.Borrow.{sem};
ghost use Rattle.csv.specs.Reading.{error_kind, stops_reader};
ghost use Rattle.dr_records.specs.Records.{records_of};
ghost use Rattle.dr_records.specs.TextReader.{IsTextReader};

use csv::{ByteRecord, Error, Reader, ReaderBuilder};
use std::alloc::{AllocError, Global};

// The one error that a read of a record from a slice may give, whatever its length is: that memory ran out.
fn out_of_memory(error: &Error) -> AllocError
    requires { stops_reader (error_kind error.now) ≡ true }
{
    let _kind = error.kind();
    AllocError
}

/// The records of a text that are left to read: commas, double quotes, no header row, any number of
/// fields.
#[derive(Drop)]
pub struct Rows<'a> {
    reader: Reader<&'a [u8]>,
    // The record that was read last, whose room the next one takes.
    row: ByteRecord,
    ghost reads: { IsTextReader reader },
}

impl<'a> Rows<'a> {
    ghost use Rattle.dr_records.specs.Rows.{Advances, Lends, rows_left};

    /// All records of a text.
    pub fn new(alloc: Global, text: &'a [u8]) -> Rows<'a>
        ensures { rows_left result ≡ records_of text.now }
    {
        Rows {
            reader: ReaderBuilder::new()
                .has_headers(false)
                .flexible(true)
                .from_reader(alloc, text),
            row: ByteRecord::new(alloc),
        }
    }

    // Reads the next record, and answers whether there was one.
    fn advance(&mut self) -> Result<bool, AllocError>
        ensures { Advances self.old self.new result }
    {
        match self.reader.read_byte_record(&mut self.row) {
            Ok(found) => Ok(found),
            Err(error) => Err(out_of_memory(&error)),
        }
    }

    /// The next record, if one is left. An error is that memory ran out, and leaves none.
    pub fn next(&mut self) -> Result<Option<&ByteRecord>, AllocError>
        // It is the first record that was left, then the others are left; none comes only where none was.
        ensures* gives { sem 𝓛 (Lends self.entry result) }
    {
        if self.advance()? {
            return Ok(Some(&self.row));
        }
        Ok(None)
    }
}
