//! How far a receiver came.

ghost use Rattle.std.specs.Prelude.{◌≡◌, length};

use crate::receiver::Receiver;

impl<T> Receiver<T> {
    /// How many events it took.
    pub fn taken(&self) -> u64
        ensures { result ≡ length self.now.knows.received }
    {
        self.taken
    }

    /// How many events it completed.
    pub fn completed(&self) -> u64
        ensures { result ≡ self.now.knows.completed }
    {
        self.completed
    }
}
