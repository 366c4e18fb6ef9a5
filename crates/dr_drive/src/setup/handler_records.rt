//! The records that declare handlers, and who follows whom.

ghost use Rattle.std.specs.Prelude.{◌≡◌, List, IfOk, map};
ghost use Rattle.csv.specs.Records.{fields_of};
ghost use Rattle.dr_graph.specs.Meaning.Name.{Name, given};
ghost use Rattle.dr_drive.specs.Meaning.Setup.{after_names, declared_by, names_after, no_handlers, then_names, edge_between, with_names};
ghost use Rattle.dr_drive.specs.Calls.Shows.{AreNames, DeclaresAs, declared_of, legible};

use crate::fault::{Cause, RecordFault};
use csv::ByteRecord;
use dr_graph::{GraphBuilder, Group};
use dr_records::{count_of, field, is_list, is_record};
use std::alloc::{AllocError, Global};
use std::str;

/// The handlers that are declared so far, and the current group, which `then` follows.
#[derive(Drop)]
pub struct Declaring {
    pub builder: GraphBuilder,
    pub group: Option<Group>,
}

impl Declaring {
    /// No handler, and no group.
    pub fn new(alloc: Global) -> Declaring
        // Nothing is declared, and there is no group to follow.
        ensures none { declared_of result ≡ no_handlers }
        // Each declared name is one that a handler may have: there is none.
        ensures names { AreNames result.builder.names }
    {
        Declaring {
            builder: GraphBuilder::new(alloc),
            group: None,
        }
    }

    /// `with`: handlers without upstreams.
    fn with(self, names: &[&str]) -> Result<Declaring, RecordFault>
        requires { AreNames self.builder.names }
        ensures { (fields : List Name) → given names.now ≡ map legible fields → DeclaresAs result (with_names (declared_of self) fields) }
    {
        let Declaring { mut builder, .. } = self;
        let group = builder.handle_with(names)?;
        Ok(Declaring {
            builder,
            group: Some(group),
        })
    }

    /// `then`: handlers that follow the current group.
    fn then(self, names: &[&str]) -> Result<Declaring, RecordFault>
        requires { AreNames self.builder.names }
        ensures { (fields : List Name) → given names.now ≡ map legible fields → DeclaresAs result (then_names (declared_of self) fields) }
    {
        let Declaring { mut builder, group } = self;
        let Some(group) = group else {
            return Err(RecordFault::Cause(Cause::NoGroup));
        };
        let followers = builder.then(&group, names)?;
        Ok(Declaring {
            builder,
            group: Some(followers),
        })
    }

    /// `after`: declared handlers, to be followed.
    fn after(self, names: &[&str]) -> Result<Declaring, RecordFault>
        requires { AreNames self.builder.names }
        ensures { (fields : List Name) → given names.now ≡ map legible fields → DeclaresAs result (after_names (declared_of self) fields) }
    {
        let Declaring { builder, .. } = self;
        let group = builder.after(names)?;
        Ok(Declaring {
            builder,
            group: Some(group),
        })
    }

    /// `edge`: one declared handler before another.
    fn edge(self, up: &str, down: &str) -> Result<Declaring, RecordFault>
        requires { AreNames self.builder.names }
        ensures { (first second : Name) → up.now ≡ legible first → down.now ≡ legible second → DeclaresAs result (edge_between (declared_of self) first second) }
    {
        let Declaring { mut builder, group } = self;
        builder.edge(up, down)?;
        Ok(Declaring { builder, group })
    }
}

// The text of a field. One that is not UTF-8 is read as the empty text, which is no handler's name either.
fn text_of(field: &[u8]) -> &str
    ensures { result.now ≡ legible field.now }
{
    match str::from_utf8(field) {
        Ok(text) => text,
        Err(_) => "",
    }
}

// The names of a record: its fields after the first.
fn names_of(alloc: Global, row: &ByteRecord) -> Result<Vec<&str>, AllocError>
    ensures { IfOk result (λ names. given names.items ≡ map legible (names_after (fields_of row.now))) }
{
    let mut names = Vec::new(alloc);
    for place in 1..count_of(row) {
        names.push(text_of(field(row, place)))?;
    }
    Ok(names)
}

// Takes a record that declares or connects handlers, with its names.
fn declare_named(
    declaring: Declaring,
    row: &ByteRecord,
    names: &[&str],
) -> Result<Declaring, RecordFault>
    requires names { AreNames declaring.builder.names }
    requires given { given names.now ≡ map legible (names_after (fields_of row.now)) }
    ensures { DeclaresAs result (declared_by (declared_of declaring) (fields_of row.now)) }
{
    if is_list(row, b"with".as_slice()) {
        declaring.with(names)
    } else if is_list(row, b"then".as_slice()) {
        declaring.then(names)
    } else if is_list(row, b"after".as_slice()) {
        declaring.after(names)
    } else if is_record(row, b"edge".as_slice(), 3) {
        declaring.edge(text_of(field(row, 1)), text_of(field(row, 2)))
    } else {
        Err(RecordFault::Cause(Cause::BadRecord))
    }
}

/// Takes a record that declares or connects handlers. A refused record ends the setup.
pub fn declare(
    alloc: Global,
    declaring: Declaring,
    row: &ByteRecord,
) -> Result<Declaring, RecordFault>
    requires { AreNames declaring.builder.names }
    ensures { DeclaresAs result (declared_by (declared_of declaring) (fields_of row.now)) }
{
    let names = names_of(alloc, row)?;
    declare_named(declaring, row, names.as_slice())
}
