//! The names of the numbers that C is told.

ghost use Rattle.std.specs.Prelude.{◌≡◌, ◌++◌, length, take, drop};
ghost use Rattle.dr_c.specs.Names.{name_by, opening_name as opening_name_by};

// The name of a number of handles, or of opening a ring.
#[tactic(auto, unfolding(crate::specs::Names::opening_name))]
fn opening_name(number: u32) -> &'static str
    ensures { result.now ≡ opening_name_by number }
{
    if number == 25 {
        "too-many"
    } else if number == 26 {
        "no-handlers"
    } else if number == 31 {
        "bad-size"
    } else if number == 32 {
        "bad-producers"
    } else if number == 33 {
        "bad-limit"
    } else if number == 40 {
        "no-memory"
    } else if number == 61 {
        "not-open"
    } else if number == 62 {
        "wrong-end"
    } else if number == 63 {
        "still-open"
    } else if number == 64 {
        "bad-order"
    } else if number == 65 {
        "bad-pointer"
    } else if number == 66 {
        "bad-length"
    } else if number == 67 {
        "not-in-hand"
    } else {
        ""
    }
}

/// The name of a number, or the empty text.
#[tactic(auto, unfolding(crate::specs::Names::name_by))]
pub fn name(number: u32) -> &'static str
    ensures { result.now ≡ name_by number }
{
    if number == 1 {
        "no-room"
    } else if number == 2 {
        "halted"
    } else if number == 3 {
        "bad-count"
    } else if number == 4 {
        "exhausted"
    } else if number == 5 {
        "not-claimed"
    } else if number == 6 {
        "already-published"
    } else if number == 7 {
        "not-written"
    } else if number == 8 {
        "out-of-order"
    } else if number == 9 {
        "not-taken"
    } else if number == 10 {
        "behind"
    } else if number == 12 {
        "no-handler"
    } else if number == 16 {
        "contended"
    } else if number == 41 {
        "open-claim"
    } else {
        opening_name(number)
    }
}

/// Puts a name to the front of a text, as far as there is room, and gives its length.
pub fn put(number: u32, text: &mut [u8]) -> usize
    // It is the length of the whole name, of which `text` has as much as fits; the rest of `text` stays.
    ensures length { result ≡ length (name_by number) }
    ensures text { text.new ≡ take (length text.old) (name_by number) ++ drop (length (name_by number)) text.old }
{
    let name = name(number).as_bytes();
    let fits = name.len().min(text.len());
    text[..fits].copy_from_slice(&name[..fits]);
    name.len()
}
