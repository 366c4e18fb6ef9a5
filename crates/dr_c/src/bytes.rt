//! An event of a number of bytes.

ghost use Rattle.std.specs.Prelude.{◌≡◌, length, replicate, IfOk};

use std::alloc::{AllocError, Global};
use std::marker::Model;

/// The bytes of an event.
#[derive(Drop)]
pub struct Bytes {
    items: Vec<u8>,
}

impl Model for Bytes {
    ghost use Rattle.std.specs.Prelude.{ℕ, List};

    ghost Value = { List ℕ };

    ghost view = { λ b. b.items.items };
}

impl Bytes {
    /// So many zeros.
    pub fn zeros(alloc: Global, count: usize) -> Result<Bytes, AllocError>
        ensures { IfOk result (λ bytes. bytes ≡ replicate count 0) }
    {
        let items = vec![in alloc; 0u8; count]?;
        Ok(Bytes { items })
    }

    /// Takes the place of these bytes, where they are as many, and else stays as it is.
    pub fn set(&mut self, bytes: &[u8])
        ensures { length self.old ≡ length bytes.now → self.new ≡ bytes.now }
    {
        if self.items.len() == bytes.len() {
            self.items.copy_from_slice(bytes);
        }
    }

    /// How many they are.
    pub fn len(&self) -> usize
        ensures { result ≡ length self.now }
    {
        self.items.len()
    }

    /// All of them, in order.
    pub fn as_slice(&self) -> &[u8]
        ensures { result.now ≡ self.now }
    {
        self.items.as_slice()
    }
}
