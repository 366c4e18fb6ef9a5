//! What the entries of a history say of each claimed sequence.

ghost use Rattle.std.specs.Prelude.{◌≡◌, ℕ, ◌<◌, ◌≤◌, ◌++◌, IfOk, OnOk, length, replicate, vec_len};
ghost use Rattle.dr_meaning.specs.Meaning.Machine.{Setup, State, opening};
ghost use Rattle.dr_lock.specs.Inside.Sequences.{Follows, Lists, Speaks, Changes, just_claimed, known, published_in, published_of, sent_of};

use crate::entry::Entry;
use dr_meaning::Command;
use std::alloc::{AllocError, Global};

/// What is known of a claimed sequence: its producer, the event that was last written to it, if any,
/// and whether it is published.
#[derive(Clone, Copy, Debug)]
pub(crate) struct Sequence<E> {
    pub owner: u64,
    pub event: Option<E>,
    pub is_published: bool,
}

/// All claimed sequences of a history, in order.
pub(crate) fn sequences<E: Copy>(
    alloc: Global,
    entries: &[Entry<E>],
) -> Result<Vec<Sequence<E>>, AllocError>
    requires { (c : Setup) × (end : State E) × Follows c (opening c) entries.now end }
    ensures { IfOk result (λ list. (c : Setup) (end : State E) → Follows c (opening c) entries.now end → Lists list.items end) }
{
    let mut list = Vec::new(alloc);
    for entry in entries {
        take_in(&mut list, entry.command)?;
    }
    Ok(list)
}

/// Takes in an accepted command.
fn take_in<E: Copy>(list: &mut Vec<Sequence<E>>, command: Command<E>) -> Result<(), AllocError>
    requires { Speaks command (vec_len list.old) }
    ensures { OnOk result (Changes command list.old.items list.new.items) }
{
    match command {
        Command::Claim { p, n } => claim(list, p, n),
        Command::Write { p: _, s, v } => {
            list[s as usize].event = Some(v);
            Ok(())
        }
        Command::Publish { p: _, lo, hi } => {
            publish(list, lo, hi);
            Ok(())
        }
        Command::Poll { h: _, max: _ } => Ok(()),
        Command::Complete { h: _, upto: _ } => Ok(()),
        Command::Halt => Ok(()),
        Command::Retire { h: _ } => Ok(()),
    }
}

fn claim<E: Copy>(list: &mut Vec<Sequence<E>>, p: u64, n: u64) -> Result<(), AllocError>
    ensures { OnOk result (list.new.items ≡ list.old.items ++ replicate n (just_claimed p)) }
{
    for _ in 0..n {
        list.push(Sequence {
            owner: p,
            event: None,
            is_published: false,
        })?;
    }
    Ok(())
}

fn publish<E: Copy>(list: &mut [Sequence<E>], lo: u64, hi: u64)
    requires stretch { lo ≤ hi }
    requires claimed { hi < length list.old }
    ensures length { length list.new ≡ length list.old }
    ensures published { (k : ℕ) → k < length list.old → known list.new k ≡ published_in lo hi k (known list.old k) }
{
    for s in lo..hi + 1 {
        list[s as usize].is_published = true;
    }
}

/// The published events, in order.
pub(crate) fn published<E: Copy>(alloc: Global, list: &[Sequence<E>]) -> Result<Vec<E>, AllocError>
    ensures { IfOk result (λ events. events.items ≡ published_of list.now) }
{
    list.iter()
        .filter(|x| x.is_published)
        .filter_map(|x| x.event)
        .collect(alloc)
}

/// The published events of a producer, in order.
pub(crate) fn sent<E: Copy>(
    alloc: Global,
    list: &[Sequence<E>],
    p: u64,
) -> Result<Vec<E>, AllocError>
    ensures { IfOk result (λ events. events.items ≡ sent_of list.now p) }
{
    list.iter()
        .filter(|x| x.is_published && x.owner == p)
        .filter_map(|x| x.event)
        .collect(alloc)
}
