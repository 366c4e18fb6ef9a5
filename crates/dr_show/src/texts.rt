//! Texts within the page's data, which is JSON in a script element.

ghost use Rattle.std.specs.Prelude.{◌≡◌, ◌/◌, ◌%◌, ◌<◌, ◌++◌, ◌∷◌, [], OnOk, codes, string_bytes};
ghost use Rattle.csv.specs.Records.{fields_of};
ghost use Rattle.dr_show.specs.Meaning.Texts.{byte_text, comma_before, field_text, fields_text, bool_text, bytes_text as bytes_text_of, hex_digit};

use csv::ByteRecord;
use dr_records::{count_of, field};
use std::alloc::AllocError;

// A hexadecimal digit.
fn digit(value: u8) -> char
    requires { value < 16 }
    ensures { result ≡ hex_digit value }
{
    if value < 10 {
        (b'0' + value) as char
    } else {
        (b'a' + (value - 10)) as char
    }
}

// A byte that is no printable ASCII, by its two hexadecimal digits.
fn put_code(page: &mut String, byte: u8) -> Result<(), AllocError>
    ensures { OnOk result (string_bytes page.new ≡ string_bytes page.old ++ (codes "\\\\x" ++ hex_digit (byte / 16) ∷ hex_digit (byte % 16) ∷ [])) }
{
    page.push_str("\\\\x")?;
    page.push(digit(byte / 16))?;
    page.push(digit(byte % 16))
}

fn put_byte(page: &mut String, byte: u8) -> Result<(), AllocError>
    ensures { OnOk result (string_bytes page.new ≡ string_bytes page.old ++ byte_text byte) }
{
    if byte == b'"' {
        page.push_str("\\\"")
    } else if byte == b'\\' {
        page.push_str("\\\\x5c")
    } else if byte == b'<' {
        page.push_str("\\u003c")
    } else if byte == b'\n' {
        page.push_str("\\n")
    } else if byte >= b' ' && byte <= b'~' {
        page.push(byte as char)
    } else {
        put_code(page, byte)
    }
}

/// Puts bytes as they stand within a string of the data.
pub(crate) fn put_bytes(page: &mut String, bytes: &[u8]) -> Result<(), AllocError>
    ensures { OnOk result (string_bytes page.new ≡ string_bytes page.old ++ bytes_text_of bytes.now) }
{
    for byte in bytes {
        put_byte(page, *byte)?;
    }
    Ok(())
}

/// Puts a comma before all but the first of a list.
pub(crate) fn put_comma(page: &mut String, place: u64) -> Result<(), AllocError>
    ensures { OnOk result (string_bytes page.new ≡ string_bytes page.old ++ comma_before place) }
{
    if place == 0 {
        Ok(())
    } else {
        page.push_str(",")
    }
}

fn put_field(page: &mut String, row: &ByteRecord, place: usize) -> Result<(), AllocError>
    ensures { OnOk result (string_bytes page.new ≡ string_bytes page.old ++ field_text (fields_of row.now) place) }
{
    put_comma(page, place as u64)?;
    put_bytes(page, field(row, place))
}

/// Puts the fields of a record, with commas between them.
pub(crate) fn put_fields(page: &mut String, row: &ByteRecord) -> Result<(), AllocError>
    ensures { OnOk result (string_bytes page.new ≡ string_bytes page.old ++ fields_text (fields_of row.now)) }
{
    for place in 0..count_of(row) {
        put_field(page, row, place)?;
    }
    Ok(())
}

/// `true` or `false`.
pub(crate) fn word_of(told: bool) -> &'static str
    ensures { result.now ≡ bool_text told }
{
    if told { "true" } else { "false" }
}
