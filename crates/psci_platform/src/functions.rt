//! Which functions a platform has.

ghost use Rattle.std.specs.Prelude.{◌≡◌};
ghost use Rattle.psci_platform.specs.Calls.{is_there};

use psci_abi::Request;

/// The functions that a platform may lack. All others are there; PSCI_SET_SUSPEND_MODE is, where
/// CPU_SUSPEND is.
#[derive(Clone, Copy, Debug, PartialEq, Eq)]
pub struct Functions {
    /// CPU_SUSPEND and PSCI_SET_SUSPEND_MODE.
    pub cpu_suspend: bool,
    /// CPU_OFF.
    pub cpu_off: bool,
    /// CPU_ON.
    pub cpu_on: bool,
    /// SYSTEM_OFF.
    pub system_off: bool,
    /// SYSTEM_RESET.
    pub system_reset: bool,
    /// NODE_HW_STATE.
    pub node_hw_state: bool,
    /// SYSTEM_SUSPEND.
    pub system_suspend: bool,
    /// SYSTEM_RESET2.
    pub system_reset2: bool,
}

impl Functions {
    /// Whether the platform has the function that is called.
    pub fn has(&self, request: Request) -> bool
        ensures { result ≡ is_there self.now request }
    {
        match request {
            Request::CpuSuspend { .. } | Request::SetSuspendMode { .. } => self.cpu_suspend,
            Request::CpuOff => self.cpu_off,
            Request::CpuOn { .. } => self.cpu_on,
            Request::SystemOff => self.system_off,
            Request::SystemReset => self.system_reset,
            Request::NodeHwState { .. } => self.node_hw_state,
            Request::SystemSuspend { .. } => self.system_suspend,
            Request::SystemReset2 { .. } => self.system_reset2,
            _ => true,
        }
    }
}
