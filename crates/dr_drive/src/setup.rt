//! The setup of a file: its records up to `start`.

pub mod handler_records;
pub mod ring_records;

ghost use Rattle.std.specs.Prelude.{◌≡◌};
ghost use Rattle.csv.specs.Records.{fields_of};
ghost use Rattle.dr_drive.specs.Meaning.Setup.{goes_on_by, missing as missing_in, prepared, started};
ghost use Rattle.dr_drive.specs.Calls.Shows.{AreNames, IsPreparation, IsRing, PreparesAs, declared_of, setting_up_of};

use crate::exchange::Exchange;
use crate::fault::{Cause, RecordFault};
use crate::setup::handler_records::{Declaring, declare};
use crate::setup::ring_records::{Ring, limit_of, ring_of};
use csv::ByteRecord;
use dr_graph::laws::placed_graph;
use dr_records::{is_named, is_record};
use std::alloc::Global;

/// How far a setup has come.
#[derive(Drop)]
pub enum Preparation {
    /// No record yet.
    Empty,
    /// After the `ring` record: `limit` may follow.
    Ringed(Ring),
    /// After `limit` or a handler: handlers may be declared and connected.
    Declaring(Ring, Declaring),
}

/// What a record of the setup does.
#[derive(Drop)]
pub enum Prepared {
    /// The setup goes on.
    Goes(Preparation),
    /// The exchange is open, and commands follow.
    Opens(Exchange),
}

// Builds the graph, and opens the exchange over it.
fn start(alloc: Global, ring: Ring, declaring: Declaring) -> Result<Prepared, RecordFault>
    requires { IsRing ring }
    ensures { PreparesAs result (started ring (declared_of declaring)) }
{
    placed_graph();
    let graph = declaring.builder.build()?;
    let exchange = Exchange::open(alloc, ring, graph)?;
    Ok(Prepared::Opens(exchange))
}

// A record after the ring and its limit.
fn go_on(
    alloc: Global,
    ring: Ring,
    declaring: Declaring,
    row: &ByteRecord,
) -> Result<Prepared, RecordFault>
    requires ring { IsRing ring }
    requires names { AreNames declaring.builder.names }
    ensures { PreparesAs result (goes_on_by ring (declared_of declaring) (fields_of row.now)) }
{
    if is_record(row, b"start".as_slice(), 1) {
        return start(alloc, ring, declaring);
    }
    let declaring = declare(alloc, declaring, row)?;
    Ok(Prepared::Goes(Preparation::Declaring(ring, declaring)))
}

/// Takes one record of the setup.
pub fn prepare(alloc: Global, at: Preparation, row: &ByteRecord) -> Result<Prepared, RecordFault>
    requires { IsPreparation at }
    ensures { PreparesAs result (prepared (setting_up_of at) (fields_of row.now)) }
{
    match at {
        Preparation::Empty => {
            let ring = ring_of(row)?;
            Ok(Prepared::Goes(Preparation::Ringed(ring)))
        }
        Preparation::Ringed(ring) => {
            let none = Declaring::new(alloc);
            if is_named(row, b"limit".as_slice()) {
                let ring = limit_of(ring, row)?;
                Ok(Prepared::Goes(Preparation::Declaring(ring, none)))
            } else {
                go_on(alloc, ring, none, row)
            }
        }
        Preparation::Declaring(ring, declaring) => go_on(alloc, ring, declaring, row),
    }
}

/// What a file lacks that ends in its setup.
pub fn missing(at: &Preparation) -> Cause
    ensures { result ≡ missing_in (setting_up_of at.now) }
{
    match at {
        Preparation::Empty => Cause::NoRing,
        Preparation::Ringed(_) => Cause::NoStart,
        Preparation::Declaring(..) => Cause::NoStart,
    }
}
