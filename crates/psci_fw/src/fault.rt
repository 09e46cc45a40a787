//! Why a firmware is not opened from words.

ghost use Rattle.std.specs.Prelude.{◌≡◌};

use psci_board::Memory;
use psci_fw_state::SavedFault;

/// Why no firmware of a board is opened from words.
#[derive(Clone, Copy, Debug, PartialEq, Eq)]
pub enum OpenFault {
    /// There is no memory.
    Memory,
    /// The words are no saved firmware of this board, by the first fault of them.
    Words(SavedFault),
    /// The words say values that no firmware of this board has.
    Values,
}

impl From<Memory> for OpenFault {
    ghost use Rattle.psci_fw.specs.declared.fault.OpenFault.TheVariants.{Memory};

    ghost from_gives = { λ _ fault. fault ≡ Memory };

    fn from(_memory: Memory) -> OpenFault {
        OpenFault::Memory
    }
}

impl From<SavedFault> for OpenFault {
    ghost use Rattle.psci_fw.specs.declared.fault.OpenFault.TheVariants.{Words};

    ghost from_gives = { λ words fault. fault ≡ Words words };

    fn from(words: SavedFault) -> OpenFault {
        OpenFault::Words(words)
    }
}
