//! In which line of a text a record begins.

/// What a byte comes after.
#[derive(Clone, Copy)]
enum State {
    /// A line's end, or nothing.
    Between,
    /// A comma.
    Start,
    /// A byte of a field without quotes, or of one whose quote is closed.
    Plain,
    /// A byte of a field whose quote is open.
    Quoted,
    /// The quote that closes a field, unless another one follows.
    Closed,
}

/// Where a record begins.
#[derive(Clone, Copy)]
pub struct Start {
    /// The line, counted from 1. Where the text has no such record, it is the line after the last.
    pub line: u64,
    /// Whether the text ends inside a quoted field of this record.
    pub is_open: bool,
}

// How far a text was read.
#[derive(Clone, Copy)]
struct Walk {
    state: State,
    // How many records have begun.
    records: u64,
    // The line of the next byte, counted from 1.
    line: u64,
    // Whether the last byte was a CR, to whose line end an LF belongs.
    is_after_return: bool,
}

fn is_line_end(byte: u8) -> bool {
    byte == b'\n' || byte == b'\r'
}

// What comes after a byte outside quotes.
fn after_plain(byte: u8) -> State {
    if is_line_end(byte) {
        State::Between
    } else if byte == b',' {
        State::Start
    } else {
        State::Plain
    }
}

fn after(state: State, byte: u8) -> State {
    let is_quote = byte == b'"';
    match state {
        State::Quoted if is_quote => State::Closed,
        State::Quoted => State::Quoted,
        State::Plain => after_plain(byte),
        _ if is_quote => State::Quoted,
        _ => after_plain(byte),
    }
}

fn step(walk: Walk, byte: u8) -> Walk {
    let begins = matches!(walk.state, State::Between) && !is_line_end(byte);
    let ends = byte == b'\r' || (byte == b'\n' && !walk.is_after_return);
    Walk {
        state: after(walk.state, byte),
        records: walk.records.saturating_add(u64::from(begins)),
        line: walk.line.saturating_add(u64::from(ends)),
        is_after_return: byte == b'\r',
    }
}

// A text without the byte order mark at its front, if it has one.
fn unmarked(text: &[u8]) -> &[u8] {
    if text.starts_with(b"\xef\xbb\xbf".as_slice()) {
        &text[3..]
    } else {
        text
    }
}

/// Where the k-th record of a text begins, counted from 1.
pub fn start_of(text: &[u8], k: u64) -> Start {
    let mut walk = Walk {
        state: State::Between,
        records: 0,
        line: 1,
        is_after_return: false,
    };
    let mut line = 0;
    for byte in unmarked(text) {
        let next = step(walk, *byte);
        if walk.records < k && next.records == k {
            line = walk.line;
        }
        walk = next;
    }
    if walk.records < k {
        line = walk
            .line
            .saturating_add(u64::from(!matches!(walk.state, State::Between)));
    }
    Start {
        line,
        is_open: walk.records == k && matches!(walk.state, State::Quoted),
    }
}
