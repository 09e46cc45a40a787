//! The state of the hardware of a power domain.

ghost use Rattle.std.specs.Prelude.{◌≡◌, pos};
ghost use Rattle.psci_fw_spec.specs.NodeHwState.{hw_code};

use psci_abi::Code;

/// What NODE_HW_STATE says (DEN0022D, NODE_HW_STATE, return values).
#[derive(Clone, Copy, Debug, PartialEq)]
pub enum Hw {
    /// HW_ON: the domain is on, or nothing else is confirmed.
    On,
    /// HW_OFF: the power controller has confirmed that it is powered down.
    Off,
    /// HW_STANDBY: the power controller has confirmed that it is in standby or retention.
    Standby,
}

impl Hw {
    /// The return code that stands for it: 0 HW_ON, 1 HW_OFF, 2 HW_STANDBY.
    pub fn code(self) -> Code
        ensures { result ≡ record { 0 = pos (hw_code self) } }
    {
        match self {
            Hw::On => Code(0),
            Hw::Off => Code(1),
            Hw::Standby => Code(2),
        }
    }
}
