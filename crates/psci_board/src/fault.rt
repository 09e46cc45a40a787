//! Why a board text is refused.

ghost use Rattle.std.specs.Prelude.{◌≡◌};

use crate::memory::Memory;
use thiserror::Error;

/// The first fault of a board text.
#[derive(Clone, Copy, Debug, PartialEq, Eq, Error)]
pub enum BoardFault {
    #[error("the text is outside the grammar")]
    Grammar,
    #[error("the outer list has numbers and lists")]
    Uneven,
    #[error("a node has no child or more than 16")]
    TooWide,
    #[error("there are more than 256 cores")]
    TooManyCores,
    #[error("there are more than four ranges, or one is empty")]
    BadRange,
    #[error("the boot address may not be entered")]
    BadBoot,
    #[error("a limit is out of range")]
    BadLimit,
    #[error("out of memory")]
    Memory,
}

impl From<Memory> for BoardFault {
    ghost use Rattle.psci_board.specs.declared.fault.BoardFault.TheVariants.{Memory};

    ghost from_gives = { λ _ fault. fault ≡ Memory };

    fn from(_memory: Memory) -> BoardFault {
        BoardFault::Memory
    }
}
