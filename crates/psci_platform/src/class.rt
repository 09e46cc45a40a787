//! Classes of power states.

ghost use Rattle.std.specs.Prelude.{◌≡◌};
ghost use Rattle.psci_platform.specs.States.{depth_of};

use psci_state::POWER_DOWN;

/// How many levels a vector of states has: the core's, 0, and three above it.
pub const LEVELS: usize = 4;

/// How many states a level has at most, running among them.
pub const STATES: usize = 16;

/// What a power state of a platform is to the firmware, from the shallowest to the deepest.
#[derive(Clone, Copy, Debug, PartialEq, Eq)]
pub enum Class {
    /// The domain is fully on.
    Running,
    /// It keeps its state, and is back at once.
    Standby,
    /// It keeps its state at a voltage at which nothing runs.
    Retention,
    /// It loses its state.
    PowerDown,
}

impl Class {
    /// The depth that stands for it in an ask: 0 fully on, 1 standby, 2 retention, 3 power-down.
    pub fn depth(self) -> u8
        ensures { result ≡ depth_of self }
    {
        match self {
            Class::Running => 0,
            Class::Standby => 1,
            Class::Retention => 2,
            Class::PowerDown => POWER_DOWN,
        }
    }
}
