//! Messages that own their bytes. Each slot has a buffer of its own, which is allocated once, before the run, and filled
//! again and again: nothing is allocated, copied to a handler or let go while messages are sent.
#![tactic(auto)]

use dr_disruptor::{InPlaceHandler, RunFault, WaitStrategy, Way, new_events, run};
use dr_graph::GraphBuilder;
use dr_seq::Size;

/// How many bytes a message has at most.
const ROOM: usize = 16;

const TEXTS: [&[u8]; 3] = [b"buy 10", b"sell 7", b"cancel"];

#[derive(Drop)]
struct Message {
    text: Vec<u8>,
}

impl Message {
    /// Puts a text in the place of what was there. It fits where it has at most [`ROOM`] bytes, and is cut else.
    fn write(&mut self, text: &[u8]) {
        self.text.clear();
        for byte in text.iter().take(ROOM) {
            let _pushed = self.text.push(*byte);
        }
    }
}

/// Counts the bytes of the messages, and those that begin with an `s`.
#[derive(Clone, Copy, Default)]
struct Reader {
    bytes: u64,
    sales: u64,
}

impl InPlaceHandler<Message> for Reader {
    fn on_event_in_place(&mut self, message: &Message, _s: u64, _end: bool) {
        self.bytes = self.bytes.wrapping_add(message.text.len() as u64);
        if message.text.first() == Some(&b's') {
            self.sales = self.sales.wrapping_add(1);
        }
    }
}

fn main(rt: HostRuntime) -> Result<(), RunFault> {
    let (alloc, size) = (rt.alloc(), Size::new(8)?);
    let mut builder = GraphBuilder::new(alloc);
    builder.handle_with(&["first", "second"])?;
    let graph = builder.build()?;
    let messages = new_events(alloc, size, || {
        Ok(Message {
            text: Vec::with_capacity(alloc, ROOM)?,
        })
    })?;
    let readers = vec![in alloc; Reader::default(); 2]?;
    let way = Way::by(WaitStrategy::Parking);
    let ran = run(rt, alloc, &graph, size, messages, readers, way, |sender| {
        sender.publish_each(900, 4, |message: &mut Message, k| {
            message.write(TEXTS[(k % 3) as usize]);
        })
    })?;
    ran.sent?;
    for reader in ran.handlers.iter() {
        let _printed = rt.println(&reader.bytes);
        let _printed = rt.println(&reader.sales);
    }
    Ok(())
}
