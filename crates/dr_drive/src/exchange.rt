//! A core that obeys the records of a file.

ghost use Rattle.std.specs.Prelude.{◌≡◌, ◌≤◌, length, take, IfErr, IfOk};
ghost use Rattle.dr_seq.specs.declared.event.Event.{Event};
ghost use Rattle.dr_meaning.specs.Meaning.Runs.{count_in};

use crate::commands::command_of;
use crate::fault::{Cause, RecordFault};
use crate::lines::put_line;
use crate::setup::ring_records::Ring;
use crate::states::push_state_if;
use csv::ByteRecord;
use dr_core::Core;
use dr_graph::Graph;
use dr_meaning::{Command, Reply};
use dr_seq::Event;
use std::alloc::{AllocError, Global};

/// A core, with what was said of its ring, and room for the longest batch.
#[derive(Drop)]
pub struct Exchange {
    core: Core<Event>,
    ring: Ring,
    batch: Vec<Event>,
    ghost room: { core.setup.size ≤ length batch.items },
    ghost same_size: { ring.size ≡ core.setup.size },
    ghost same_mode: { ring.mode ≡ core.setup.mode },
    ghost same_limit: { ring.limit ≡ core.setup.limit },
}

impl Exchange {
    ghost use Rattle.std.specs.Prelude.{Bool, List, string_bytes};
    ghost use Rattle.csv.specs.Records.{fields_of};
    ghost use Rattle.dr_meaning.specs.Meaning.Machine.{Setup, State, opening, step};
    ghost use Rattle.dr_records.specs.Records.{Field};
    ghost use Rattle.dr_drive.specs.Meaning.Commands.{command_of as command_in};
    ghost use Rattle.dr_drive.specs.Meaning.DriveText.{obeys};
    ghost use Rattle.dr_drive.specs.Calls.Shows.{ExchangeShows, Executes, FaultLeaves, IsRing, ObeysAs, batch_of, core_of, ring_setup};

    /// Opens a core over a graph of handlers. An error is that memory ran out.
    pub fn open(alloc: Global, ring: Ring, graph: Graph) -> Result<Exchange, AllocError>
        requires { IsRing ring }
        ensures { IfOk result (λ e. ExchangeShows e graph.names (ring_setup ring graph) (opening (ring_setup ring graph))) }
    {
        let batch = vec![in alloc; Event::NONE; ring.size.get() as usize]?;
        let core = Core::open_valid(alloc, graph, ring.size, ring.mode, ring.limit, Event::NONE)?;
        Ok(Exchange { core, ring, batch })
    }

    /// The core.
    pub fn core(&self) -> &Core<Event>
        ensures { result.now ≡ core_of self.now }
    {
        &self.core
    }

    /// What was said of its ring.
    pub fn ring(&self) -> Ring
        // It has the core's size, mode and limit.
        ensures size { result.size ≡ (core_of self.now).setup.size }
        ensures mode { result.mode ≡ (core_of self.now).setup.mode }
        ensures limit { result.limit ≡ (core_of self.now).setup.limit }
    {
        self.ring
    }

    /// The command of a record, if it is one.
    pub fn command(&self, row: &ByteRecord) -> Option<Command<Event>>
        ensures { result ≡ command_in (core_of self.now).names (fields_of row.now) }
    {
        command_of(self.core.graph(), row)
    }

    /// Executes a command. [`Exchange::handed`] has the events that come with the reply.
    pub fn execute(&mut self, command: Command<Event>) -> Reply
        // The reply, the events that come with it and the state after it are the machine's, in whatever state the exchange is.
        ensures shown { (names : List Field) (c : Setup) (m : State Event) → ExchangeShows self.old names c m → Executes self.new names c (step c m command) result }
        // There is room for as many events as the reply tells.
        ensures fits { count_in result ≤ length (batch_of self.new) }
    {
        self.core.execute(command, self.batch.as_mut_slice())
    }

    /// The events that came with the last reply, of which this is how many.
    pub fn handed(&self, count: usize) -> &[Event]
        requires { count ≤ length (batch_of self.now) }
        ensures { result.now ≡ take count (batch_of self.now) }
    {
        &self.batch[..count]
    }

    /// Runs the command of a record, and puts its line in the place of another, followed by the state's
    /// line where that is told. Where the record is no command, nothing is done.
    pub fn obey(
        &mut self,
        row: &ByteRecord,
        states: bool,
        line: &mut String,
    ) -> Result<(), RecordFault>
        // Its line, and the state that the exchange shows then, are those of the record, in whatever state it is.
        ensures shown { (names : List Field) (c : Setup) (m : State Event) → ExchangeShows self.old names c m → ObeysAs result self.new (string_bytes line.new) (obeys states names c m (command_in names (fields_of row.now))) }
        // A record that is no command leaves the exchange as it was.
        ensures refused { IfErr result (λ fault. FaultLeaves fault self.old self.new) }
    {
        let Some(command) = self.command(row) else {
            return Err(RecordFault::Cause(Cause::BadRecord));
        };
        let reply = self.execute(command);
        put_line(line, reply, self.handed(reply.count()))?;
        push_state_if(states, line, &self.core, self.ring.limit)?;
        Ok(())
    }
}
