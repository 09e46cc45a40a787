//! What the first argument of a call is to a platform.

ghost use Rattle.std.specs.Prelude.{◌≡◌, ◌<◌, ◌^◌, if◌then◌else◌};
ghost use Rattle.psci_platform.specs.Arguments.{argument_by, there};

use crate::functions::Functions;
use psci_abi::words::{
    AFFINITY_INFO_32, AFFINITY_INFO_64, CPU_OFF, CPU_ON_32, CPU_ON_64, CPU_SUSPEND_32,
    CPU_SUSPEND_64, NODE_HW_STATE_32, NODE_HW_STATE_64, PSCI_FEATURES, PSCI_SET_SUSPEND_MODE,
    SYSTEM_OFF, SYSTEM_RESET, SYSTEM_RESET2_32, SYSTEM_RESET2_64, SYSTEM_SUSPEND_32,
    SYSTEM_SUSPEND_64,
};

/// What the first argument of a function names, as far as a platform has words of its own for it.
#[derive(Clone, Copy, Debug, PartialEq, Eq)]
pub enum Argument {
    /// The function is not there.
    Missing,
    /// A power state word.
    State,
    /// A core, by its MPIDR.
    Core,
    /// A core or power domain, by an MPIDR; the second argument is its level.
    Node,
    /// A function word.
    Function,
    /// A reset type.
    Reset,
    /// An entry point, beside which the whole system is to go down.
    System,
    /// Nothing, or what is the same everywhere.
    Other,
}

impl Functions {
    /// What the first argument of the function of a word names.
    #[inline(always)]
    pub(crate) fn first_argument(&self, word: u32) -> Argument
        ensures { result ≡ argument_by self.now word }
    {
        match word {
            CPU_SUSPEND_32 | CPU_SUSPEND_64 => there(self.cpu_suspend, Argument::State),
            CPU_OFF => there(self.cpu_off, Argument::Other),
            CPU_ON_32 | CPU_ON_64 => there(self.cpu_on, Argument::Core),
            AFFINITY_INFO_32 | AFFINITY_INFO_64 => Argument::Node,
            SYSTEM_OFF => there(self.system_off, Argument::Other),
            SYSTEM_RESET => there(self.system_reset, Argument::Other),
            PSCI_FEATURES => Argument::Function,
            NODE_HW_STATE_32 | NODE_HW_STATE_64 => there(self.node_hw_state, Argument::Node),
            SYSTEM_SUSPEND_32 | SYSTEM_SUSPEND_64 => there(self.system_suspend, Argument::System),
            PSCI_SET_SUSPEND_MODE => there(self.cpu_suspend, Argument::Other),
            SYSTEM_RESET2_32 | SYSTEM_RESET2_64 => there(self.system_reset2, Argument::Reset),
            _ => Argument::Other,
        }
    }
}

/// The argument of a function that is there.
fn there(is_there: bool, argument: Argument) -> Argument
    ensures { result ≡ there is_there argument }
{
    if is_there {
        argument
    } else {
        Argument::Missing
    }
}
