// Why a call is refused, and what is told besides.
ghost use Rattle.std.specs.Prelude.{◌≡◌};
ghost use Rattle.protocol.specs.declared.refusal.Refusal.TheVariants.{Fault as of_fault};
ghost use Rattle.protocol.specs.Refusals.{pool_number, refusal_number};

use crate::command::Handle;
use syntax::ReadFault;

/// A pool of the store.
#[derive(Clone, Copy, PartialEq, Eq, Debug)]
pub enum PoolName {
    Tokens,
    Links,
    Versions,
}

impl PoolName {
    /// The number by which refusals name the pool.
    // Not its discriminant: a cast of the enum gives its place in the list, from 0.
    pub fn number(self) -> u8
        ensures { result ≡ pool_number self }
    {
        match self {
            PoolName::Tokens => 1,
            PoolName::Links => 2,
            PoolName::Versions => 3,
        }
    }
}

/// Why a call is refused, in the order in which it is checked. A refusal changes nothing.
#[derive(Clone, Copy, PartialEq, Eq, Debug)]
pub enum Refusal {
    /// An allocator's capacity is not its pool's size, or it has not allocated exactly the live cells.
    Misfit {
        pool: PoolName,
    },
    /// A handle above 63, or a free one where a held one is needed.
    NoHandle {
        handle: Handle,
    },
    /// The handle to fill is held.
    HandleHeld {
        handle: Handle,
    },
    /// A text above 32,000 bytes was handed in.
    TextTooLong {
        length: usize,
    },
    /// The text has a fault.
    Fault(ReadFault),
    /// The path does not lead there: so many steps could be followed.
    NoPath {
        followed: usize,
    },
    /// Neighbours would run together: the second of the first such pair.
    RunTogether {
        item: usize,
    },
    /// Forms would nest so deep, above 16.
    TooDeep {
        nesting: usize,
    },
    /// The new version would have so many bytes, above 32,000.
    VersionTooLong {
        length: usize,
    },
    /// More cells are needed than a pool has free.
    TooFewCells {
        pool: PoolName,
        needed: usize,
        free: usize,
    },
    /// There is no older version to go back to.
    NothingToUndo {
        handle: Handle,
    },
    /// The buffer is shorter than the bytes that it should take.
    BufferTooShort {
        needed: usize,
    },
    /// A line of a script that is no command.
    NoCommand,
    /// A line of a script above 256 bytes.
    LineTooLong,
}

impl From<ReadFault> for Refusal {
    ghost from_gives = { λ f r. r ≡ of_fault f };

    fn from(fault: ReadFault) -> Refusal {
        Refusal::Fault(fault)
    }
}

impl Refusal {
    /// The number of the refusal.
    // Cases that carry a value have no discriminant to cast.
    pub fn number(self) -> u8
        ensures { result ≡ refusal_number self }
    {
        match self {
            Refusal::Misfit { .. } => 1,
            Refusal::NoHandle { .. } => 2,
            Refusal::HandleHeld { .. } => 3,
            Refusal::TextTooLong { .. } => 4,
            Refusal::Fault(_) => 5,
            Refusal::NoPath { .. } => 6,
            Refusal::RunTogether { .. } => 7,
            Refusal::TooDeep { .. } => 8,
            Refusal::VersionTooLong { .. } => 9,
            Refusal::TooFewCells { .. } => 10,
            Refusal::NothingToUndo { .. } => 11,
            Refusal::BufferTooShort { .. } => 12,
            Refusal::NoCommand => 13,
            Refusal::LineTooLong => 14,
        }
    }
}
