//! Where in a record a byte stands, and what it does there: the rules by which csv reads, a byte at a time.

ghost use Rattle.std.specs.Prelude.{◌≡◌, ◌++◌, ◌∷◌, [], false, true};
ghost use Rattle.csv.specs.Machine as csv;
ghost use Rattle.csv.specs.Reading.{default_config};
ghost use Rattle.dr_records.specs.Resuming.{action_of, ends_mark as ends_mark_in, goes_on, is_first, mark_at, settled, state_of};
ghost use Rattle.dr_records.specs.declared.place.Action.TheVariants as act;
ghost use Rattle.dr_records.specs.declared.place.Place.TheVariants as at;

/// Where the next byte of a stream stands.
#[derive(Clone, Copy, Debug)]
pub(crate) enum Place {
    /// Nothing came yet.
    Start,
    /// The first byte of a byte order mark came, and nothing else.
    Mark1,
    /// The first two bytes of a byte order mark came, and nothing else.
    Mark2,
    /// Between records.
    StartRecord,
    /// Behind a comma.
    StartField,
    /// In a field that is not quoted, or behind the closing quote of one that was.
    InField,
    /// Behind the opening quote of a field.
    InQuoted,
    /// Behind a quote in a quoted field: the closing one, or the first of two.
    AfterQuote,
}

/// What a byte does.
#[derive(Clone, Copy, Debug)]
pub(crate) enum Action {
    Skip,
    /// It is the field's own.
    Copy,
    EndField,
    /// It ends the record, and so its last field.
    EndRecord,
}

fn in_field(byte: u8) -> (Place, Action)
    ensures state { state_of result.0 ≡ settled (csv.in_field default_config byte).0 }
    ensures action { action_of result.1 ≡ (csv.in_field default_config byte).1 }
    ensures past { is_first result.0 ≡ false }
    ensures ended { csv.is_end (action_of result.1) ≡ true → result.0 ≡ at.StartRecord }
{
    match byte {
        b',' => (Place::StartField, Action::EndField),
        b'\r' | b'\n' => (Place::StartRecord, Action::EndRecord),
        _ => (Place::InField, Action::Copy),
    }
}

fn start_field(byte: u8) -> (Place, Action)
    ensures state { state_of result.0 ≡ settled (csv.start_field default_config byte).0 }
    ensures action { action_of result.1 ≡ (csv.start_field default_config byte).1 }
    ensures past { is_first result.0 ≡ false }
    ensures ended { csv.is_end (action_of result.1) ≡ true → result.0 ≡ at.StartRecord }
{
    match byte {
        b'"' => (Place::InQuoted, Action::Skip),
        _ => in_field(byte),
    }
}

fn start_record(byte: u8) -> (Place, Action)
    ensures state { state_of result.0 ≡ settled (csv.start_record default_config byte).0 }
    ensures action { action_of result.1 ≡ (csv.start_record default_config byte).1 }
    ensures past { is_first result.0 ≡ false }
    ensures ended { csv.is_end (action_of result.1) ≡ true → result.0 ≡ at.StartRecord }
{
    match byte {
        b'\r' | b'\n' => (Place::StartRecord, Action::Skip),
        _ => start_field(byte),
    }
}

/// The next place and the action of a byte.
pub(crate) fn step(place: Place, byte: u8) -> (Place, Action)
    ensures state { state_of result.0 ≡ settled (csv.step default_config (state_of place) byte).0 }
    ensures action { action_of result.1 ≡ (csv.step default_config (state_of place) byte).1 }
    ensures first { is_first result.0 ≡ goes_on place byte }
    ensures mark { goes_on place byte ≡ true → mark_at result.0 ≡ mark_at place ++ byte ∷ [] }
    ensures copied { goes_on place byte ≡ true → result.1 ≡ act.Copy }
    ensures ended { csv.is_end (action_of result.1) ≡ true → result.0 ≡ at.StartRecord }
{
    match (place, byte) {
        (Place::Start, 0xEF) => (Place::Mark1, Action::Copy),
        (Place::Mark1, 0xBB) => (Place::Mark2, Action::Copy),
        (Place::InQuoted, b'"') => (Place::AfterQuote, Action::Skip),
        (Place::AfterQuote, b'"') | (Place::InQuoted, _) => (Place::InQuoted, Action::Copy),
        (Place::Start | Place::StartRecord, _) => start_record(byte),
        (Place::StartField, _) => start_field(byte),
        _ => in_field(byte),
    }
}

/// Whether a byte is the last of a byte order mark.
pub(crate) fn ends_mark(place: Place, byte: u8) -> bool
    ensures { result ≡ ends_mark_in place byte }
{
    match (place, byte) {
        (Place::Mark2, 0xBF) => true,
        _ => false,
    }
}

/// Whether an action ends a record.
pub(crate) fn is_end(action: Action) -> bool
    ensures { result ≡ csv.is_end (action_of action) }
{
    match action {
        Action::EndRecord => true,
        _ => false,
    }
}

/// Whether a stream that ends here ends a record.
pub(crate) fn is_open(place: Place) -> bool
    ensures { result ≡ csv.ends_at_end (state_of place) }
{
    match place {
        Place::Start | Place::StartRecord => false,
        _ => true,
    }
}
