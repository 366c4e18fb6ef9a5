//! Orders go to a journal on disk, and to a book once they are there, each on a thread of its own. The next start finds them
//! again. It takes the name of the journal, and without one shows two days over a file that it removes.
#![tactic(auto)]

ghost use Rattle.std.specs.Prelude.{◌≡◌, ◌≤◌, ℕ, List, length, IfOk};
ghost use Rattle.dr_disruptor.specs.Handlers.{WentThrough};
ghost use Rattle.example_durable.specs.Days.{IsOnDisk};
ghost use Rattle.example_durable.specs.declared.order.Order.{Order};

mod book;
mod fault;
mod order;

use book::Book;
use dr_disruptor::{InPlaceHandler, RunFault, WaitStrategy, Way, new_events, run};
use dr_graph::{Graph, GraphBuilder};
use dr_journal::{FileDevice, Journal, Journaling, open, read_events};
use dr_seq::Size;
use fault::Fault;
use order::Order;
use std::alloc::Global;
use std::sync::Wait;
use std::thread::Threads;
use std::{env, fs, process};

/// The journal, and the book of all orders that stand in it.
#[derive(Drop)]
struct Day {
    journal: Journal<FileDevice>,
    book: Book,
}

/// Finds what earlier days left in a file.
fn start(files: &HostRuntime, path: &str) -> Result<Day, Fault>
    ensures { IfOk result (λ day. IsOnDisk day) }
{
    let (journal, records) = open(files, path)?;
    let orders: Vec<Order> = read_events(files.alloc(), &records)?;
    let book = Book::of(&orders);
    Ok(Day { journal, book })
}

/// Takes a thousand orders through the journal and then the book, and tells how many were sent.
fn taken<R: Threads + Wait + Copy + Send + 'static>(
    rt: R,
    alloc: Global,
    graph: &Graph,
    journal: Journaling<FileDevice>,
    book: Book,
) -> Result<(Journaling<FileDevice>, Book, u64), RunFault>
    // Both went through the same orders, of which a batch could have had all.
    ensures { IfOk result (λ after. (orders : List Order) × (length orders ≡ after.2) × (most : ℕ) × (length orders ≤ most) × WentThrough ⟦<Journaling<FileDevice> as InPlaceHandler<Order>>⟧.goes most journal after.0 orders × WentThrough ⟦<Book as InPlaceHandler<Order>>⟧.goes most book after.1 orders) }
{
    let size = Size::new(64)?;
    let slots = new_events(alloc, size, || Ok(Order::default()))?;
    let way = Way::by(WaitStrategy::Parking);
    let ran = run(
        rt,
        alloc,
        graph,
        size,
        slots,
        (journal, book),
        way,
        |sender| {
            sender.publish_each(1000, 16, |order: &mut Order, k| order.quantity = 1 + k % 3)
        },
    )?;
    ran.sent?;
    let sent = ran.settled.published();
    let (journal, book) = ran.handlers;
    Ok((journal, book, sent))
}

/// Takes a thousand orders more: each is on the disk before the book has it.
fn trade<R: Threads + Wait + Copy + Send + 'static>(
    rt: R,
    alloc: Global,
    graph: &Graph,
    day: Day,
) -> Result<Day, Fault>
    requires { IsOnDisk day }
    // What the book has is on the disk, and each crash from then on leaves it.
    ensures { IfOk result (λ after. IsOnDisk after) }
{
    let Day { journal, book } = day;
    let journal = Journaling::new(alloc, journal);
    let (journal, book, _sent) = taken(rt, alloc, graph, journal, book)?;
    if let Some(fault) = journal.fault() {
        return Err(Fault::Disk(fault));
    }
    let journal = journal.into_journal();
    Ok(Day { journal, book })
}

/// The journal first, and then the book.
fn pipeline(alloc: Global) -> Result<Graph, RunFault> {
    let mut builder = GraphBuilder::new(alloc);
    let journal = builder.handle_with(&["journal"])?;
    builder.then(&journal, &["book"])?;
    Ok(builder.build()?)
}

/// Says what a file has, takes a thousand orders more, and says what there is then.
fn show_day<R: Threads + Wait + Copy + Send + 'static>(
    rt: R,
    files: &HostRuntime,
    path: &str,
) -> Result<(), Fault> {
    let graph = pipeline(files.alloc())?;
    let found = start(files, path)?;
    files.println(format_args!("found {} orders", found.book.orders))?;
    let day = trade(rt, files.alloc(), &graph, found)?;
    files.println(format_args!("{} orders of {}", day.book.orders, day.book.quantity))?;
    Ok(())
}

fn main(rt: HostRuntime) -> Result<(), Fault> {
    if let Some(path) = env::args(&rt)?.nth(1) {
        return show_day(rt, &rt, path.as_str());
    }
    let mut path = env::temp_dir(&rt)?;
    path.push(format!(in rt.alloc(); "orders-{}.journal", process::id(rt.process()))?)?;
    for _ in 0..2 {
        show_day(rt, &rt, path.as_str())?;
    }
    Ok(fs::remove_file(&rt, path.as_str())?)
}
