//! What stands in the fields of a record.

ghost use Rattle.std.specs.Prelude.{◌≡◌, ◌==◌, length};
ghost use Rattle.csv.specs.Records.{fields_of};
ghost use Rattle.dr_records.specs.Records.{field as field_in, is_list as is_list_in, begins_with as is_named_in, is_record as is_record_in, number_at as number_in};

use csv::ByteRecord;
use dr_files::number_of;

/// How many fields a record has.
pub fn count_of(row: &ByteRecord) -> usize
    ensures { result ≡ length (fields_of row.now) }
{
    row.len()
}

/// The field at a place, counted from 0, or an empty one where the record has none there.
pub fn field(row: &ByteRecord, place: usize) -> &[u8]
    ensures { result.now ≡ field_in (fields_of row.now) place }
{
    match row.get(place) {
        Some(field) => field,
        None => b"".as_slice(),
    }
}

/// Whether a record has this first field.
pub fn is_named(row: &ByteRecord, name: &[u8]) -> bool
    ensures { result ≡ is_named_in name.now (fields_of row.now) }
{
    field(row, 0) == name
}

/// Whether a record has this first field and this many fields.
pub fn is_record(row: &ByteRecord, name: &[u8], count: usize) -> bool
    ensures { result ≡ is_record_in name.now count (fields_of row.now) }
{
    count_of(row) == count && is_named(row, name)
}

/// Whether a record has this first field and a list of one or more after it.
pub fn is_list(row: &ByteRecord, name: &[u8]) -> bool
    ensures { result ≡ is_list_in name.now (fields_of row.now) }
{
    count_of(row) >= 2 && is_named(row, name)
}

/// The number in the field at a place, if one stands there.
pub fn number_at(row: &ByteRecord, place: usize) -> Option<u64>
    ensures { result ≡ number_in (fields_of row.now) place }
{
    number_of(field(row, place))
}
