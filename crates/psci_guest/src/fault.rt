//! Why words are not loaded as the power of a guest.

ghost use Rattle.std.specs.Prelude.{◌≡◌};
ghost use Rattle.psci_guest.specs.Saved.{load_fault};
ghost use Rattle.psci_guest.specs.declared.fault.LoadFault.TheVariants as faults;

use psci_ctl::SavedFault as ControllerFault;
use psci_fw::{OpenFault, SavedFault};

/// Why words are not loaded as the power of a guest: the first reason in this order. Of memory
/// nothing is said: it may lack before any word was read.
#[derive(Clone, Copy, Debug, PartialEq, Eq)]
pub enum LoadFault {
    /// There is no memory for another firmware.
    Memory,
    /// The first fault of the firmware's words.
    Firmware(SavedFault),
    /// No firmware keeps what its words say.
    Values,
    /// The first fault of the power controller's words, which are all behind the firmware's.
    Controller(ControllerFault),
}

impl From<OpenFault> for LoadFault {
    ghost from_gives = { λ opened fault. fault ≡ load_fault opened };

    fn from(fault: OpenFault) -> LoadFault {
        match fault {
            OpenFault::Memory => LoadFault::Memory,
            OpenFault::Words(fault) => LoadFault::Firmware(fault),
            OpenFault::Values => LoadFault::Values,
        }
    }
}

impl From<ControllerFault> for LoadFault {
    ghost from_gives = { λ words fault. fault ≡ faults.Controller words };

    fn from(fault: ControllerFault) -> LoadFault {
        LoadFault::Controller(fault)
    }
}
