//! Who says whether a core may call.

use psci_board::Core;

/// Says whether a core may make its call of some number; a core's calls are numbered from 0.
pub trait Gate {
    /// Asked once before each call. It may keep the asking thread waiting. A no ends the run.
    fn may(&self, core: Core, call: u64) -> bool;

    /// Told once the call is answered, or refused by a full book.
    fn done(&self, core: Core, call: u64);
}

/// A gate that is always open.
#[derive(Clone, Copy, Debug, PartialEq, Eq)]
pub struct OpenGate;

impl Gate for OpenGate {
    fn may(&self, _core: Core, _call: u64) -> bool {
        true
    }

    fn done(&self, _core: Core, _call: u64) {}
}
