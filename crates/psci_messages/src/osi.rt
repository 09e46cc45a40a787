//! Why a core may not be the last one that goes down.

use thiserror::Error;

/// Why an OS-initiated request is refused: the caller is not the last core of a domain that it asks
/// to go down.
#[derive(Clone, Copy, Debug, PartialEq, Eq, Error)]
pub enum Osi {
    /// INVALID_PARAMETERS: a domain beside the caller's path is not down far enough, although no
    /// core below it is running or pending.
    #[error("a domain beside the path is not down far enough")]
    Invalid,
    /// DENIED: a domain beside the caller's path is not down far enough, and a core below each such
    /// domain is running or pending.
    #[error("a core beside the path is running or pending")]
    Denied,
}
