//! Why a trace is not that of one legal run.

use thiserror::Error;

/// Why a trace is not that of one legal run, or can't be judged.
#[derive(Clone, Copy, Debug, PartialEq, Eq, Error)]
pub enum AuditFault {
    /// The tickets of a book do not rise, or both books have one ticket.
    #[error("the tickets do not fit")]
    Ticket,
    /// The entry at this place of the merged list, counted from 0, may not follow those before it.
    #[error("the entry at place {0} may not follow those before it")]
    Illegal(u64),
    /// Memory ran out.
    #[error("out of memory")]
    Memory,
}
