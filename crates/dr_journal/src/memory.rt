//! A file in memory, for tests: each call is done at once, so a crash leaves what is there.

ghost use Rattle.std.specs.Prelude.{◌≡◌, ◌⊎◌, [], ◌∷◌, ◌++◌, length, drop, OnOk, OnErr};
ghost use Rattle.std.proofs.Common.{inl};
ghost use Rattle.dr_journal.specs.Inside.Past.{HadBeen, only_bytes};

use crate::{Device, JournalFault};
use std::alloc::{AllocError, Global};

/// A file in memory. It keeps each past content, so that contracts can speak of each moment.
#[derive(Drop)]
pub struct MemoryDevice {
    alloc: Global,
    bytes: Vec<u8>,
    past: Vec<Vec<u8>>,
}

impl MemoryDevice {
    ghost use Rattle.dr_journal.specs.Calls.Memory.{memory_bytes};

    /// A file with these bytes, all of them on the disk.
    pub fn new(alloc: Global, bytes: Vec<u8>) -> Self
        ensures { memory_bytes result ≡ bytes.items }
    {
        MemoryDevice {
            alloc,
            bytes,
            past: Vec::new(alloc),
        }
    }

    /// What the file has.
    pub fn bytes(&self) -> &[u8]
        ensures { result.now ≡ memory_bytes self.now }
    {
        &self.bytes
    }
}

// Puts other bytes in the place of those that are there, which it keeps.
fn replace(
    alloc: Global,
    bytes: &mut Vec<u8>,
    past: &mut Vec<Vec<u8>>,
    next: Vec<u8>,
) -> Result<(), AllocError>
    ensures ok { OnOk result (bytes.new.items ≡ next.items) }
    ensures err { OnErr result (bytes.new.items ≡ bytes.old.items) }
    ensures past { OnOk result ((v : _) × (v.items ≡ bytes.old.items) × (past.new.items ≡ past.old.items ++ v ∷ [])) }
    ensures past_err { OnErr result (past.new.items ≡ past.old.items) }
{
    past.push(bytes.to_vec(alloc)?)?;
    *bytes = next;
    Ok(())
}

impl Device for MemoryDevice {
    ghost seen = { λ m. m.bytes.items };

    ghost may_leave = { λ m c. c ≡ m.bytes.items };

    ghost moment = { λ m. length m.past.items };

    ghost left_since = { λ m t c. (c ≡ m.bytes.items) ⊎ HadBeen (drop t m.past.items) c };

    ghost faults = { λ m. 0 };

    ghost counts_now = { λ m t c le now. inl now };

    ghost only_now = { λ m c left. only_bytes m.past.items m.bytes.items c left };

    fn overwrite(&mut self, at: usize, bytes: &Vec<u8>) -> Result<(), JournalFault> {
        let mut next = self.bytes[..at].to_vec(self.alloc)?;
        next.extend_from_slice(bytes)?;
        next.extend_from_slice(&self.bytes[at + bytes.len()..])?;
        Ok(replace(self.alloc, &mut self.bytes, &mut self.past, next)?)
    }

    fn extend(&mut self, bytes: &Vec<u8>) -> Result<(), JournalFault> {
        let mut next = self.bytes.to_vec(self.alloc)?;
        next.extend_from_slice(bytes)?;
        Ok(replace(self.alloc, &mut self.bytes, &mut self.past, next)?)
    }

    fn sync(&mut self) -> Result<(), JournalFault> {
        Ok(())
    }
}
