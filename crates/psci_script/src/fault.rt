//! How a script ends.

ghost use Rattle.std.specs.Prelude.{◌≡◌};

use psci_board::BoardFault;
use psci_world_spec::Memory;
use std::alloc::AllocError;
use thiserror::Error;

/// A script that ended without a fault.
#[derive(Clone, Copy, Debug, PartialEq, Eq)]
pub struct Replayed {
    /// How many lines it has.
    pub lines: u64,
    /// How many of them are events.
    pub events: u64,
}

/// What is wrong with a line of a script.
#[derive(Clone, Copy, Debug, PartialEq, Eq, Error)]
pub enum ScriptFault {
    /// There is no first line, or it does not begin with `board `.
    #[error("there is no board line first")]
    NoBoard,
    /// A later line is of no form of the grammar.
    #[error("the line is outside the grammar")]
    Line,
    /// A line has more than 256 bytes before its line feed.
    #[error("the line has more than 256 bytes")]
    Long,
    /// A line comes after the 1,000,000th.
    #[error("there are more than 1,000,000 lines")]
    TooMany,
}

/// Why a replay ended early.
#[derive(Clone, Copy, Debug, PartialEq, Eq, Error)]
pub enum ReplayFault {
    /// A faulty line, counted from 1.
    #[error("a line of the script is at fault")]
    Script { line: u64, fault: ScriptFault },
    /// A faulty board text in the first line.
    #[error("the board text is at fault")]
    Board(BoardFault),
    /// A read failed, or was interrupted once too often.
    #[error("the script could not be read")]
    Read,
    /// A write failed, or was interrupted once too often.
    #[error("the answers could not be written")]
    Write,
    /// Memory ran out.
    #[error("out of memory")]
    Memory,
}

impl ScriptFault {
    /// The fault of the line of this number, counted from 1.
    pub fn at(self, line: u64) -> ReplayFault
        ensures { result ≡ ReplayFault.Script line self }
    {
        ReplayFault::Script { line, fault: self }
    }
}

impl From<AllocError> for ReplayFault {
    ghost use Rattle.std.specs.Prelude.{◌≡◌};
    ghost use Rattle.psci_script.specs.declared.fault.ReplayFault.TheVariants.{Memory};

    ghost from_gives = { λ error fault. fault ≡ Memory };

    fn from(_error: AllocError) -> ReplayFault {
        ReplayFault::Memory
    }
}

impl From<Memory> for ReplayFault {
    ghost use Rattle.std.specs.Prelude.{◌≡◌};
    ghost use Rattle.psci_script.specs.declared.fault.ReplayFault.TheVariants.{Memory};

    ghost from_gives = { λ error fault. fault ≡ Memory };

    fn from(_error: Memory) -> ReplayFault {
        ReplayFault::Memory
    }
}
