//! A function and its arguments.

ghost use Rattle.std.specs.Prelude.{◌≡◌, true};
ghost use Rattle.psci_abi.specs.Calls.{function_of, request_of};
ghost use Rattle.psci_abi.specs.Functions.{arguments_of, function_in, registers_of, word_for};

use crate::functions::Function;
use crate::registers::{Regs, low, narrow};
use crate::words::{
    AFFINITY_INFO_32, AFFINITY_INFO_64, CPU_OFF, CPU_ON_32, CPU_ON_64, CPU_SUSPEND_32,
    CPU_SUSPEND_64, MIGRATE, MIGRATE_INFO_TYPE, NODE_HW_STATE_32, NODE_HW_STATE_64, PSCI_FEATURES,
    PSCI_SET_SUSPEND_MODE, PSCI_VERSION, SYSTEM_OFF, SYSTEM_RESET, SYSTEM_RESET2_32,
    SYSTEM_RESET2_64, SYSTEM_SUSPEND_32, SYSTEM_SUSPEND_64,
};

/// A function with its arguments, each cut to its width, so that no later code sees a register.
///
/// Targets, entry points, context ids and cookies have 64 bits in an SMC64 call and 32 in an SMC32
/// call; power states, levels, modes and reset types have 32 bits in both, and so has the function
/// word that PSCI_FEATURES asks about. The variants stand in the order of the function numbers, and
/// in each what has 32 bits stands first: so no two overlap but as a whole, and a request that is
/// read and then matched is so in one jump.
#[derive(Clone, Copy, Debug, PartialEq, Eq)]
pub enum Request {
    /// PSCI_VERSION.
    Version,
    /// CPU_SUSPEND: the caller stops in a power state.
    CpuSuspend {
        /// The power state word, in the board's format.
        state: u32,
        /// Where it enters again after a power-down state.
        entry: u64,
        /// What it finds in x0 there.
        context: u64,
    },
    /// CPU_OFF: the caller stops until it is asked on again.
    CpuOff,
    /// CPU_ON: start the core that `target` names at the entry point, with the context id.
    CpuOn {
        /// The affinity word of the core.
        target: u64,
        /// The address of its first instruction.
        entry: u64,
        /// What it finds in x0 there.
        context: u64,
    },
    /// AFFINITY_INFO: the status of a power domain.
    AffinityInfo {
        /// The level of the power domain, 0 for a core.
        level: u32,
        /// An affinity word; fields below the level are ignored.
        target: u64,
    },
    /// MIGRATE_INFO_TYPE.
    MigrateInfoType,
    /// SYSTEM_OFF: the whole system powers down.
    SystemOff,
    /// SYSTEM_RESET: the whole system powers down and starts again.
    SystemReset,
    /// PSCI_FEATURES: whether a function is there, and its feature flags.
    Features {
        /// The function word that is asked about.
        word: u32,
    },
    /// NODE_HW_STATE: the state of the hardware of a power domain.
    NodeHwState {
        /// The level of the power domain, 0 for a core.
        level: u32,
        /// An affinity word; fields below the level are ignored.
        target: u64,
    },
    /// SYSTEM_SUSPEND: the caller, the last core that is not off, takes the system down with it.
    SystemSuspend {
        /// Where it enters again.
        entry: u64,
        /// What it finds in x0 there.
        context: u64,
    },
    /// PSCI_SET_SUSPEND_MODE: who decides on the states of power domains.
    SetSuspendMode {
        /// 0 for platform-coordinated, 1 for OS-initiated mode; any other value is passed on.
        mode: u32,
    },
    /// SYSTEM_RESET2: a reset of the whole system of this type.
    SystemReset2 {
        /// 0 for a reset as by SYSTEM_RESET; any other value, also of a vendor, is passed on.
        reset_type: u32,
        /// A value for resets of a vendor.
        cookie: u64,
    },
    /// Every other function word: NOT_SUPPORTED.
    Unknown,
}

impl Request {
    /// The function that is called; None of an unknown function word.
    pub fn function(self) -> Option<Function>
        ensures { result ≡ function_in self }
    {
        match self {
            Request::Version => Some(Function::Version),
            Request::CpuSuspend { .. } => Some(Function::CpuSuspend),
            Request::CpuOff => Some(Function::CpuOff),
            Request::CpuOn { .. } => Some(Function::CpuOn),
            Request::AffinityInfo { .. } => Some(Function::AffinityInfo),
            Request::MigrateInfoType => Some(Function::MigrateInfoType),
            Request::SystemOff => Some(Function::SystemOff),
            Request::SystemReset => Some(Function::SystemReset),
            Request::Features { .. } => Some(Function::Features),
            Request::NodeHwState { .. } => Some(Function::NodeHwState),
            Request::SystemSuspend { .. } => Some(Function::SystemSuspend),
            Request::SetSuspendMode { .. } => Some(Function::SetSuspendMode),
            Request::SystemReset2 { .. } => Some(Function::SystemReset2),
            Request::Unknown => None,
        }
    }

    /// The arguments, as x1 to x3 carry them; 0 where there is none.
    pub fn arguments(self) -> [u64; 3]
        ensures { result ≡ arguments_of self }
    {
        match self {
            Request::CpuSuspend {
                state,
                entry,
                context,
            } => [u64::from(state), entry, context],
            Request::CpuOn {
                target,
                entry,
                context,
            } => [target, entry, context],
            Request::AffinityInfo { target, level } => [target, u64::from(level), 0],
            Request::NodeHwState { target, level } => [target, u64::from(level), 0],
            Request::SystemSuspend { entry, context } => [entry, context, 0],
            Request::Features { word } => [u64::from(word), 0, 0],
            Request::SetSuspendMode { mode } => [u64::from(mode), 0, 0],
            Request::SystemReset2 { reset_type, cookie } => [u64::from(reset_type), cookie, 0],
            Request::Version
            | Request::CpuOff
            | Request::MigrateInfoType
            | Request::SystemOff
            | Request::SystemReset
            | Request::Unknown => [0; 3],
        }
    }

    /// CPU_SUSPEND with these arguments.
    fn cpu_suspend(state: u32, entry: u64, context: u64) -> Request
        ensures { result ≡ Request.CpuSuspend state entry context }
    {
        Request::CpuSuspend {
            state,
            entry,
            context,
        }
    }

    /// CPU_ON with these arguments.
    fn cpu_on(target: u64, entry: u64, context: u64) -> Request
        ensures { result ≡ Request.CpuOn target entry context }
    {
        Request::CpuOn {
            target,
            entry,
            context,
        }
    }

    /// AFFINITY_INFO with these arguments.
    fn affinity_info(target: u64, level: u32) -> Request
        ensures { result ≡ Request.AffinityInfo level target }
    {
        Request::AffinityInfo { target, level }
    }

    /// NODE_HW_STATE with these arguments.
    fn node_hw_state(target: u64, level: u32) -> Request
        ensures { result ≡ Request.NodeHwState level target }
    {
        Request::NodeHwState { target, level }
    }

    /// SYSTEM_SUSPEND with these arguments.
    fn system_suspend(entry: u64, context: u64) -> Request
        ensures { result ≡ Request.SystemSuspend entry context }
    {
        Request::SystemSuspend { entry, context }
    }

    /// SYSTEM_RESET2 with these arguments.
    fn system_reset2(reset_type: u32, cookie: u64) -> Request
        ensures { result ≡ Request.SystemReset2 reset_type cookie }
    {
        Request::SystemReset2 { reset_type, cookie }
    }
}

/// The function that the registers call. Every value of every register has one answer. Compiled
/// into its callers, so that a request is never written to memory. Which convention it is is asked
/// once, so that no register is cut that has all its bits read.
#[inline(always)]
pub fn read(regs: Regs) -> Request
    ensures { result ≡ request_of regs }
{
    let Regs { x0, x1, x2, x3 } = regs;
    if regs.is_wide() {
        function(low(x0), x1, x2, x3)
    } else {
        function(low(x0), narrow(x1), narrow(x2), narrow(x3))
    }
}

/// The function of a word, with its arguments as the word's convention passes them.
#[inline(always)]
pub fn function(word: u32, x1: u64, x2: u64, x3: u64) -> Request
    ensures { result ≡ function_of word x1 x2 x3 }
{
    match word {
        PSCI_VERSION => Request::Version,
        CPU_SUSPEND_32 | CPU_SUSPEND_64 => Request::cpu_suspend(low(x1), x2, x3),
        CPU_OFF => Request::CpuOff,
        CPU_ON_32 | CPU_ON_64 => Request::cpu_on(x1, x2, x3),
        AFFINITY_INFO_32 | AFFINITY_INFO_64 => Request::affinity_info(x1, low(x2)),
        MIGRATE_INFO_TYPE => Request::MigrateInfoType,
        SYSTEM_OFF => Request::SystemOff,
        SYSTEM_RESET => Request::SystemReset,
        PSCI_FEATURES => Request::Features { word: low(x1) },
        NODE_HW_STATE_32 | NODE_HW_STATE_64 => Request::node_hw_state(x1, low(x2)),
        SYSTEM_SUSPEND_32 | SYSTEM_SUSPEND_64 => Request::system_suspend(x1, x2),
        PSCI_SET_SUSPEND_MODE => Request::SetSuspendMode { mode: low(x1) },
        SYSTEM_RESET2_32 | SYSTEM_RESET2_64 => Request::system_reset2(low(x1), x2),
        _ => Request::Unknown,
    }
}

// How a request is called: by which registers.

impl Request {
    /// The registers by which a request is called, in the SMC64 convention where it is wanted and
    /// the function has a word there. In the SMC32 convention the upper halves are not read. An
    /// unknown function is called as MIGRATE, which is not supported.
    pub fn registers(self, wide: bool) -> Regs
        ensures value { result ≡ registers_of wide self }
        ensures again { wide ≡ true → request_of result ≡ self }
    {
        let [x1, x2, x3] = self.arguments();
        Regs {
            x0: u64::from(word_for(self.function(), wide)),
            x1,
            x2,
            x3,
        }
    }
}

/// The word by which a function is called, in the SMC64 convention where it is wanted and there.
fn word_for(function: Option<Function>, wide: bool) -> u32
    ensures { result ≡ word_for wide function }
{
    match function {
        None => MIGRATE,
        Some(function) if wide => function.wide_word().unwrap_or(function.narrow_word()),
        Some(function) => function.narrow_word(),
    }
}
