//! Why a description is refused.

use thiserror::Error;

/// The first fault of a description.
#[derive(Clone, Copy, Debug, PartialEq, Eq, Error)]
pub enum PlatformFault {
    #[error("there is not one MPIDR for each core")]
    WrongCount,
    #[error("an MPIDR has a bit outside its affinity fields")]
    BadMpidr,
    #[error("two cores have the same MPIDR")]
    SameMpidr,
    #[error("no core has the MPIDR of the boot core")]
    NoBootCore,
    #[error("the tree looks another way from the boot core than from its first core")]
    LateBootCore,
    #[error("the platform takes down more levels than the board has")]
    TooManyLevels,
    #[error("a class is shallower than that of the state before, or state 0 is not running")]
    FallingClass,
    #[error("there are more than 64 power state words")]
    TooManyRows,
    #[error("a power state word has a reserved bit, or one that does not count")]
    BadWord,
    #[error("one word is read by two rows")]
    SameWord,
    #[error("a word says power-down where the core does not, or not where it does")]
    WrongType,
    #[error("the states of a word are no power state of the platform")]
    BadStates,
    #[error("SYSTEM_SUSPEND does not power down every level")]
    BadSystem,
    #[error("a function or a reset needs another function")]
    BadFunctions,
}
