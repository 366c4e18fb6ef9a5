//! What is known of the last claimed sequences.

ghost use Rattle.std.specs.Prelude.{◌≡◌, length};

use dr_meaning::{Command, Reply};
use dr_seq::{Event, Size, Slots};
use std::alloc::{AllocError, Global};

/// A claimed sequence: its producer, the event that was last written to it, if any, and whether it is
/// published.
#[derive(Clone, Copy, Debug)]
pub(crate) struct Sequence {
    pub producer: u64,
    pub event: Option<Event>,
    pub is_published: bool,
}

/// The last claimed sequences, as many as there are slots, each in its slot.
#[derive(Drop)]
pub(crate) struct Recents {
    slots: Slots<Sequence>,
    size: Size,
    ghost all: { length slots ≡ size },
}

impl Recents {
    ghost use Rattle.std.specs.Prelude.{◌-◌, ◌<◌, ◌≤◌, IfOk};
    ghost use Rattle.dr_seq.specs.declared.event.Event.{Event};
    ghost use Rattle.dr_meaning.specs.Meaning.Machine.{Setup, State, step};
    ghost use Rattle.dr_show.specs.Inside.Sequences.{Becomes, Changes, Follows, Remembers, Speaks, claimed_in, published_in, said_of, slots_of, written_in};

    /// So many slots for claimed sequences. An error is that memory ran out.
    pub fn new(alloc: Global, size: Size) -> Result<Recents, AllocError>
        ensures { IfOk result (λ recents. length (slots_of recents) ≡ size) }
    {
        let unclaimed = Sequence {
            producer: 0,
            event: None,
            is_published: false,
        };
        let slots = Slots::new(alloc, size, unclaimed)?;
        Ok(Recents { slots, size })
    }

    /// How many are known at most.
    pub fn size(&self) -> u64
        ensures { result ≡ length (slots_of self.now) }
    {
        self.size.get()
    }

    /// What is known of one of the last claimed sequences.
    pub fn get(&self, s: u64) -> Sequence
        ensures { result ≡ said_of (slots_of self.now) s }
    {
        self.slots.get(s)
    }

    // A producer claimed the last `n` sequences of those claimed by now.
    fn claim(&mut self, producer: u64, n: u64, next: u64)
        requires round { n ≤ length (slots_of self.old) }
        requires claimed { n ≤ next }
        ensures { Becomes next (claimed_in (next - n) producer) (slots_of self.old) (slots_of self.new) }
    {
        for s in next - n..next {
            let claimed = Sequence {
                producer,
                event: None,
                is_published: false,
            };
            self.slots.put(s, claimed);
        }
    }

    // An event was written to a sequence, which is forgotten if it lies further back than the slots.
    fn write(&mut self, s: u64, event: Event, next: u64)
        requires { s < next }
        ensures { Becomes next (written_in event s) (slots_of self.old) (slots_of self.new) }
    {
        if next - s > self.size.get() {
            return;
        }
        let before = self.slots.get(s);
        let event = Some(event);
        self.slots.put(s, Sequence { event, ..before });
    }

    // A stretch of sequences was published, of which those are forgotten that lie further back.
    fn publish(&mut self, lo: u64, hi: u64, next: u64)
        requires { hi < next }
        ensures { Becomes next (published_in lo hi) (slots_of self.old) (slots_of self.new) }
    {
        let first = next.saturating_sub(self.size.get());
        for s in lo.max(first)..hi + 1 {
            let before = self.slots.get(s);
            let published = Sequence {
                is_published: true,
                ..before
            };
            self.slots.put(s, published);
        }
    }

    // Takes in an accepted command, after which so many sequences are claimed.
    fn take_in(&mut self, command: Command<Event>, next: u64)
        requires { Speaks command (length (slots_of self.old)) next }
        ensures { Changes command next (slots_of self.old) (slots_of self.new) }
    {
        match command {
            Command::Claim { p, n } => self.claim(p, n, next),
            Command::Write { p: _, s, v } => self.write(s, v, next),
            Command::Publish { p: _, lo, hi } => self.publish(lo, hi, next),
            Command::Poll { h: _, max: _ } => {}
            Command::Complete { h: _, upto: _ } => {}
            Command::Halt => {}
            Command::Retire { h: _ } => {}
        }
    }

    /// Takes in a command by its reply, after which so many sequences are claimed. One that is refused
    /// changes nothing.
    pub fn note(&mut self, command: Command<Event>, reply: Reply, next: u64)
        requires { (c : Setup) × (m : State Event) × Follows c m command reply next (slots_of self.old) }
        // As many are known as before.
        ensures size { length (slots_of self.new) ≡ length (slots_of self.old) }
        // Each of them is known as the state after the command has it.
        ensures remembers { (c : Setup) (m : State Event) → Follows c m command reply next (slots_of self.old) → Remembers (slots_of self.new) (step c m command).state }
    {
        match reply {
            Reply::Refused(_) => {}
            _ => self.take_in(command, next),
        }
    }
}
