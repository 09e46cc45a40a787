//! The table of functions: how the standard names each, by which words it is called, and what it
//! takes.

ghost use Rattle.std.specs.Prelude.{◌≡◌};
ghost use Rattle.psci_abi.specs.Functions.{function_name, narrow_word, short_name, takes};
ghost use Rattle.psci_abi.specs.Functions.{wide_word};

use crate::parameter::Parameter::{
    self, Context, Cookie, Entry, Level, Mode, Nothing, PowerState, ResetType, Target, Word,
};
use crate::words::{
    AFFINITY_INFO_32, AFFINITY_INFO_64, CPU_OFF, CPU_ON_32, CPU_ON_64, CPU_SUSPEND_32,
    CPU_SUSPEND_64, MIGRATE_INFO_TYPE, NODE_HW_STATE_32, NODE_HW_STATE_64, PSCI_FEATURES,
    PSCI_SET_SUSPEND_MODE, PSCI_VERSION, SYSTEM_OFF, SYSTEM_RESET, SYSTEM_RESET2_32,
    SYSTEM_RESET2_64, SYSTEM_SUSPEND_32, SYSTEM_SUSPEND_64,
};

/// A function of the standard, whatever its arguments are. The variants stand in the order of the
/// function numbers.
#[derive(Clone, Copy, Debug, PartialEq, Eq)]
pub enum Function {
    /// PSCI_VERSION.
    Version,
    /// CPU_SUSPEND.
    CpuSuspend,
    /// CPU_OFF.
    CpuOff,
    /// CPU_ON.
    CpuOn,
    /// AFFINITY_INFO.
    AffinityInfo,
    /// MIGRATE_INFO_TYPE.
    MigrateInfoType,
    /// SYSTEM_OFF.
    SystemOff,
    /// SYSTEM_RESET.
    SystemReset,
    /// PSCI_FEATURES.
    Features,
    /// NODE_HW_STATE.
    NodeHwState,
    /// SYSTEM_SUSPEND.
    SystemSuspend,
    /// PSCI_SET_SUSPEND_MODE.
    SetSuspendMode,
    /// SYSTEM_RESET2.
    SystemReset2,
}

/// A line of the table.
#[derive(Clone, Copy)]
struct Row {
    /// The name in the standard.
    name: &'static str,
    /// The same as one word of a line: without PSCI, in small letters.
    short: &'static str,
    /// The word in the SMC32 convention.
    narrow: u32,
    /// The word in the SMC64 convention, if there is one.
    wide: Option<u32>,
    /// What x1 to x3 carry.
    takes: [Parameter; 3],
}

/// The line of a function in a table, which has for each its name, its short name, its words and
/// what it takes.
macro_rules! rows {
    ($of:ident: $(
        $function:ident => $name:expr, $short:expr, $narrow:expr, $wide:expr, $takes:expr;
    )+) => {
        match $of {
            $(Function::$function => Row {
                name: $name,
                short: $short,
                narrow: $narrow,
                wide: $wide,
                takes: $takes,
            }),+
        }
    };
}

impl Function {
    /// Its name in the standard.
    pub fn name(self) -> &'static str
        ensures { result.now ≡ function_name self }
    {
        self.row().name
    }

    /// The same as one word of a line: without PSCI, in small letters.
    pub fn short_name(self) -> &'static str
        ensures { result.now ≡ short_name self }
    {
        self.row().short
    }

    /// Its word in the SMC32 convention.
    pub fn narrow_word(self) -> u32
        ensures { result ≡ narrow_word self }
    {
        self.row().narrow
    }

    /// Its word in the SMC64 convention, if it has one.
    pub fn wide_word(self) -> Option<u32>
        ensures { result ≡ wide_word self }
    {
        self.row().wide
    }

    /// What its arguments are, as x1 to x3 carry them.
    pub fn takes(self) -> [Parameter; 3]
        ensures { result ≡ takes self }
    {
        self.row().takes
    }

    /// Its line of the table.
    fn row(self) -> Row
        ensures name { result.name.now ≡ function_name self }
        ensures short { result.short.now ≡ short_name self }
        ensures narrow { result.narrow ≡ narrow_word self }
        ensures wide { result.wide ≡ wide_word self }
        ensures takes { result.takes ≡ takes self }
    {
        rows! { self:
            Version => "PSCI_VERSION", "version",
                PSCI_VERSION, None, [Nothing, Nothing, Nothing];
            CpuSuspend => "CPU_SUSPEND", "cpu_suspend",
                CPU_SUSPEND_32, Some(CPU_SUSPEND_64), [PowerState, Entry, Context];
            CpuOff => "CPU_OFF", "cpu_off",
                CPU_OFF, None, [Nothing, Nothing, Nothing];
            CpuOn => "CPU_ON", "cpu_on",
                CPU_ON_32, Some(CPU_ON_64), [Target, Entry, Context];
            AffinityInfo => "AFFINITY_INFO", "affinity_info",
                AFFINITY_INFO_32, Some(AFFINITY_INFO_64), [Target, Level, Nothing];
            MigrateInfoType => "MIGRATE_INFO_TYPE", "migrate_info_type",
                MIGRATE_INFO_TYPE, None, [Nothing, Nothing, Nothing];
            SystemOff => "SYSTEM_OFF", "system_off",
                SYSTEM_OFF, None, [Nothing, Nothing, Nothing];
            SystemReset => "SYSTEM_RESET", "system_reset",
                SYSTEM_RESET, None, [Nothing, Nothing, Nothing];
            Features => "PSCI_FEATURES", "features",
                PSCI_FEATURES, None, [Word, Nothing, Nothing];
            NodeHwState => "NODE_HW_STATE", "node_hw_state",
                NODE_HW_STATE_32, Some(NODE_HW_STATE_64), [Target, Level, Nothing];
            SystemSuspend => "SYSTEM_SUSPEND", "system_suspend",
                SYSTEM_SUSPEND_32, Some(SYSTEM_SUSPEND_64), [Entry, Context, Nothing];
            SetSuspendMode => "PSCI_SET_SUSPEND_MODE", "set_suspend_mode",
                PSCI_SET_SUSPEND_MODE, None, [Mode, Nothing, Nothing];
            SystemReset2 => "SYSTEM_RESET2", "system_reset2",
                SYSTEM_RESET2_32, Some(SYSTEM_RESET2_64), [ResetType, Cookie, Nothing];
        }
    }
}
