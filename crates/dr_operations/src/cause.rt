//! Why a record of an event file is at fault.

ghost use Rattle.std.specs.Prelude.{◌≡◌};
ghost use Rattle.dr_operations.specs.Reading.{cause_name};

use dr_files::Named;

/// Why a record of an event file is at fault.
#[derive(Clone, Copy, Debug, PartialEq, Eq)]
pub enum Cause {
    /// The record is no operation.
    BadRecord,
}

impl Named for Cause {
    ghost name_of = { cause_name };

    fn name(&self) -> &'static str {
        match self {
            Cause::BadRecord => "bad record",
        }
    }
}
