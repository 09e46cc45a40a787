//! What all threads of a run share, and how each of them ends.

ghost use Rattle.std.specs.Prelude.{◌≡◌};

use crate::gathering::Cut;
use crate::watch::Watch;
use crate::wire::Wire;
use psci_shared::{Board, Core, CtlPass, Named, SharedController, SharedFirmware};
use std::alloc::{AllocError, AllocFailed};

/// What all threads of a run share.
#[derive(Drop)]
pub(crate) struct Platform<'a, N: Named, M: Named> {
    pub(crate) board: &'a Board,
    pub(crate) firmware: &'a SharedFirmware<'a, N>,
    pub(crate) controller: &'a SharedController<'a, M>,
    pub(crate) wire: &'a Wire,
    /// How many calls each core makes at most.
    pub(crate) count: u64,
    ghost named: { board.now ≡ M.board },
}

/// Why a thread ends before its work is done.
#[derive(Clone, Copy, Debug, PartialEq, Eq)]
pub(crate) enum Ending {
    /// A book is full, nothing more can come, it has waited too long, or another thread has given
    /// up.
    Early,
    /// The gate said no.
    Gate,
    /// Memory ran out.
    Memory,
}

impl From<AllocError> for Ending {
    fn from(_fault: AllocError) -> Ending {
        Ending::Memory
    }
}

impl<T: Drop> From<AllocFailed<T>> for Ending {
    fn from(_fault: AllocFailed<T>) -> Ending {
        Ending::Memory
    }
}

/// What a thread hands back.
#[derive(Drop)]
pub(crate) struct Returned<N: Named, M: Named> {
    pub(crate) watch: Watch<N>,
    pub(crate) asked: CtlPass<M>,
    /// The core whose thread it was, unless it was the link's.
    pub(crate) core: Option<Core>,
    pub(crate) fault: Option<Cut>,
}

/// The fault of a thread that ended so, if it is one.
pub(crate) fn fault_of(ended: Result<(), Ending>) -> Option<Cut> {
    match ended {
        Ok(()) | Err(Ending::Early) => None,
        Err(Ending::Gate) => Some(Cut::Gate),
        Err(Ending::Memory) => Some(Cut::Memory),
    }
}
