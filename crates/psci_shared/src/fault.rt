//! Why a call, a pass or a gathering is refused.

use psci_fw::FwFault;
use thiserror::Error;

/// Why a call through a pass is refused.
#[derive(Clone, Copy, Debug, PartialEq, Error)]
pub enum CallFault {
    /// The book, or the pass's own list, holds all that it has room for. Nothing was entered.
    #[error("the book is full")]
    BookFull,
    /// The firmware refuses the call. That was entered as its reply.
    #[error("the firmware refuses the call")]
    Fw(FwFault),
}

/// Why no pass is made.
#[derive(Clone, Copy, Debug, PartialEq, Eq, Error)]
pub enum PassFault {
    /// The core is not on the board.
    #[error("the board has no such core")]
    NoCore,
    /// 1,000 passes were made.
    #[error("there are too many passes")]
    TooMany,
    /// Memory ran out.
    #[error("out of memory")]
    Memory,
}

/// Why passes are not gathered.
#[derive(Clone, Copy, Debug, PartialEq, Eq, Error)]
pub enum GatherCause {
    /// A pass does not agree with the book.
    #[error("a pass does not agree with the book")]
    Astray,
    /// Fewer passes came than were made.
    #[error("not all passes are there")]
    Missing,
}
