//! Why a ring is not opened.

ghost use Rattle.std.specs.Prelude.{◌≡◌};
ghost use Rattle.dr_c.specs.OpenFault.{number_of};

/// Why a ring is not opened.
#[derive(Clone, Copy, Debug, PartialEq, Eq)]
pub enum OpenFault {
    /// A handle that would be opened is open.
    StillOpen,
    /// There are not as many receivers as handlers.
    BadCount,
    /// The size is no power of two from 1 to 65,536.
    BadSize,
    /// There would be no handler.
    NoHandlers,
    /// There would be more than 16 handlers.
    TooMany,
    /// A handler's mask names itself, or one after it.
    BadOrder,
    /// There would be no senders, or more than 16.
    BadProducers,
    /// The limit of sequences is 0 or above 2^62.
    BadLimit,
    /// An allocation failed.
    NoMemory,
}

impl OpenFault {
    /// The fault's number, which stays the same in every release.
    pub fn number(self) -> u32
        ensures { result ≡ number_of self }
    {
        match self {
            OpenFault::StillOpen => 63,
            OpenFault::BadCount => 3,
            OpenFault::BadSize => 31,
            OpenFault::NoHandlers => 26,
            OpenFault::TooMany => 25,
            OpenFault::BadOrder => 64,
            OpenFault::BadProducers => 32,
            OpenFault::BadLimit => 33,
            OpenFault::NoMemory => 40,
        }
    }
}
