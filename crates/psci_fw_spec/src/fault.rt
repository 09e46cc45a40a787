//! Calls that the firmware refuses: no core executes them as the board and its life stand.

use thiserror::Error;

/// Why a call is refused. A refused call changes nothing.
#[derive(Clone, Copy, Debug, PartialEq, Error)]
pub enum FwFault {
    /// The core is not on the board.
    #[error("the board has no such core")]
    NoCore,
    /// A call before any core has entered, or a core that enters in a life that the board does not
    /// have.
    #[error("there is no such life")]
    NoLife,
    /// The caller of a function is not running.
    #[error("the calling core is not running")]
    NotRunning,
    /// A core enters by a start that is over, or that the board does not have.
    #[error("the start is not a new one of the core")]
    OldStart,
}
