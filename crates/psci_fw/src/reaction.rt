//! What comes of a call while its message stays in its slot.

ghost use Rattle.std.specs.Prelude.{◌≡◌, None, Some};
ghost use Rattle.psci_fw_spec.specs.declared.outcome.Act.TheVariants as acts;

use psci_abi::Code;
use psci_fw_spec::Act;

/// What the firmware does about a call that it does not refuse. The message stays in its slot,
/// where `Firmware::outstanding` reads it.
#[derive(Clone, Copy)]
pub struct Reaction {
    /// What the calling core does next.
    pub act: Act,
    /// The number of the slot that has what is sent to the power controller, if something is: that
    /// of a core, or for the system the number of cores.
    pub slot: Option<u16>,
}

impl Reaction {
    /// The caller goes on with this code, and nothing is sent.
    pub fn returns(code: Code) -> Reaction
        ensures { result ≡ record { act = acts.Return code; slot = None } }
    {
        Reaction {
            act: Act::Return(code),
            slot: None,
        }
    }

    /// The core stops, and nothing is sent.
    pub fn stops() -> Reaction
        ensures { result ≡ record { act = acts.Stop; slot = None } }
    {
        Reaction {
            act: Act::Stop,
            slot: None,
        }
    }

    /// The core stops, and what is in this slot is sent.
    pub fn stops_with(slot: u16) -> Reaction
        ensures { result ≡ record { act = acts.Stop; slot = Some slot } }
    {
        Reaction {
            act: Act::Stop,
            slot: Some(slot),
        }
    }
}
