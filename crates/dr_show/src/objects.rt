//! The objects of the page's data.

ghost use Rattle.std.specs.Prelude.{◌≡◌, ◌<◌, ◌-◌, ◌^◌, ◌++◌, OnOk, codes, decimal, length, string_bytes};
ghost use Rattle.csv.specs.Records.{fields_of};
ghost use Rattle.dr_drive.specs.Calls.Shows.{core_of};
ghost use Rattle.dr_drive.specs.Calls.Standing.{room_in};
ghost use Rattle.dr_show.specs.Meaning.Texts.{bool_text, bytes_text};
ghost use Rattle.dr_show.specs.Meaning.PageText.{fault_text, faulty_text, record_text};
ghost use Rattle.dr_show.specs.Inside.Seen.{state_seen};
ghost use Rattle.dr_show.specs.Inside.Objects.{command_seen, last_seen, start_seen};
ghost use Rattle.dr_show.specs.Inside.Sequences.{slots_of};

use crate::exchanges::put_exchange;
use crate::handlers::put_handlers;
use crate::rounds::put_round;
use crate::sequences::Recents;
use crate::texts::{put_bytes, put_fields, word_of};
use csv::ByteRecord;
use dr_core::Core;
use dr_drive::standing::room;
use dr_drive::{Cause, Exchange};
use dr_files::FileFault;
use dr_seq::Event;
use std::alloc::AllocError;

// Puts a record by its number, and what stands in it.
fn put_record(page: &mut String, k: u64, row: &ByteRecord) -> Result<(), AllocError>
    ensures { OnOk result (string_bytes page.new ≡ string_bytes page.old ++ record_text k (fields_of row.now)) }
{
    write!(page, "{{\"record\":{k},\"text\":\"")?;
    put_fields(page, row)?;
    page.push_str("\"")
}

// Puts how far a core is, and its room.
fn put_counts(page: &mut String, core: &Core<Event>, limit: u64) -> Result<(), AllocError>
    requires { limit ≡ core.now.setup.limit }
    ensures { OnOk result (string_bytes page.new ≡ string_bytes page.old ++ (codes ",\"next\":" ++ decimal core.now.next ++ codes ",\"front\":" ++ decimal core.now.front ++ codes ",\"room\":" ++ decimal (room_in core.now))) }
{
    let next = core.next();
    let front = core.front();
    let room = room(core, limit);
    write!(page, ",\"next\":{next},\"front\":{front},\"room\":{room}")
}

// Puts whether a core is halted.
fn put_halt(page: &mut String, core: &Core<Event>) -> Result<(), AllocError>
    ensures { OnOk result (string_bytes page.new ≡ string_bytes page.old ++ (codes ",\"halted\":" ++ bool_text core.now.halted)) }
{
    let halted = word_of(core.is_halted());
    write!(page, ",\"halted\":{halted}")
}

// Puts how an exchange stands.
fn put_state(page: &mut String, exchange: &Exchange, recents: &Recents) -> Result<(), AllocError>
    requires { length (slots_of recents.now) ≡ (core_of exchange.now).setup.size }
    ensures { OnOk result (string_bytes page.new ≡ string_bytes page.old ++ state_seen (core_of exchange.now) (slots_of recents.now)) }
{
    let core = exchange.core();
    let ring = exchange.ring();
    put_counts(page, core, ring.limit)?;
    put_halt(page, core)?;
    put_handlers(page, core, ring.mode)?;
    put_round(page, recents, core.next())
}

/// Puts the object of a record of the setup that opens no exchange.
pub(crate) fn put_setup(page: &mut String, k: u64, row: &ByteRecord) -> Result<(), AllocError>
    ensures { OnOk result (string_bytes page.new ≡ string_bytes page.old ++ (record_text k (fields_of row.now) ++ codes "},\n")) }
{
    put_record(page, k, row)?;
    page.push_str("},\n")
}

/// Puts the object of the record that opens an exchange.
pub(crate) fn put_start(
    page: &mut String,
    k: u64,
    row: &ByteRecord,
    exchange: &Exchange,
    recents: &Recents,
) -> Result<(), AllocError>
    requires { length (slots_of recents.now) ≡ (core_of exchange.now).setup.size }
    ensures { OnOk result (string_bytes page.new ≡ string_bytes page.old ++ start_seen k (fields_of row.now) (core_of exchange.now) (slots_of recents.now)) }
{
    put_record(page, k, row)?;
    put_exchange(page, exchange)?;
    put_state(page, exchange, recents)?;
    page.push_str("},\n")
}

// Puts the line of a reply.
fn put_reply(page: &mut String, line: &str) -> Result<(), AllocError>
    ensures { OnOk result (string_bytes page.new ≡ string_bytes page.old ++ (codes ",\"reply\":\"" ++ bytes_text line.now ++ codes "\"")) }
{
    page.push_str(",\"reply\":\"")?;
    put_bytes(page, line.as_bytes())?;
    page.push_str("\"")
}

/// Puts the object of a command, with the line of its reply.
pub(crate) fn put_command(
    page: &mut String,
    k: u64,
    row: &ByteRecord,
    line: &str,
    exchange: &Exchange,
    recents: &Recents,
) -> Result<(), AllocError>
    requires { length (slots_of recents.now) ≡ (core_of exchange.now).setup.size }
    ensures { OnOk result (string_bytes page.new ≡ string_bytes page.old ++ command_seen k (fields_of row.now) line.now (core_of exchange.now) (slots_of recents.now)) }
{
    put_record(page, k, row)?;
    put_reply(page, line)?;
    put_state(page, exchange, recents)?;
    page.push_str("},\n")
}

// Puts the line of a fault, as `drive` says it.
fn put_fault(page: &mut String, k: u64, cause: Cause) -> Result<(), AllocError>
    ensures { OnOk result (string_bytes page.new ≡ string_bytes page.old ++ fault_text k cause) }
{
    let fault = FileFault::Input { k, cause };
    write!(page, ",\"fault\":\"{fault}\"}}")
}

/// Puts the object of a record at fault, and that it is the last.
pub(crate) fn put_faulty(
    page: &mut String,
    k: u64,
    row: &ByteRecord,
    cause: Cause,
) -> Result<(), AllocError>
    ensures { OnOk result (string_bytes page.new ≡ string_bytes page.old ++ faulty_text k (fields_of row.now) cause) }
{
    put_record(page, k, row)?;
    put_fault(page, k, cause)?;
    write!(page, ",\n{{\"last\":{k}}}")
}

/// Puts how many records there are, and the fault of a file that ends in its setup.
pub(crate) fn put_last(
    page: &mut String,
    last: u64,
    missing: Option<Cause>,
) -> Result<(), AllocError>
    requires { last < 2 ^ 64 - 1 }
    ensures { OnOk result (string_bytes page.new ≡ string_bytes page.old ++ last_seen last missing) }
{
    write!(page, "{{\"last\":{last}")?;
    match missing {
        Some(cause) => put_fault(page, last + 1, cause),
        None => page.push_str("}"),
    }
}
