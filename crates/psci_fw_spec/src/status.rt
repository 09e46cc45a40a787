//! The status of a core or of a power domain.

ghost use Rattle.std.specs.Prelude.{◌≡◌, pos};
ghost use Rattle.psci_fw_spec.specs.PowerCalls.{is_on, is_pending_status, status_code};

use psci_abi::Code;

/// What AFFINITY_INFO says (DEN0022D, AFFINITY_INFO, return values).
#[derive(Clone, Copy, Debug, PartialEq)]
pub enum Status {
    /// ON: running or suspended, or going off and not known to have gone.
    On,
    /// OFF.
    Off,
    /// ON_PENDING: asked on, by CPU_ON or by the start of a life, and not entered yet.
    Pending,
}

impl Status {
    /// Whether it is ON.
    pub fn is_on(self) -> bool
        ensures { result ≡ is_on self }
    {
        self == Status::On
    }

    /// Whether it is ON_PENDING.
    pub fn is_pending(self) -> bool
        ensures { result ≡ is_pending_status self }
    {
        self == Status::Pending
    }

    /// The return code that stands for it: 0 ON, 1 OFF, 2 ON_PENDING.
    pub fn code(self) -> Code
        ensures { result ≡ record { 0 = pos (status_code self) } }
    {
        match self {
            Status::On => Code(0),
            Status::Off => Code(1),
            Status::Pending => Code(2),
        }
    }
}
