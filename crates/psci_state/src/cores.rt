//! What is kept of a core.

ghost use Rattle.std.specs.Prelude.{◌≡◌, ◌≤◌, ◌<◌, ◌^◌};
ghost use Rattle.psci_state.specs.Cores.{asks, core_changed, is_active, is_away};

use crate::ask::{Ask, POWER_DOWN};

/// What a core does, as its power domains see it.
#[derive(Clone, Copy)]
pub enum Activity {
    /// Running or pending.
    Active,
    /// Suspended, with this ask.
    Suspended(Ask),
    /// Off or going off.
    Away,
}

/// What is kept of a core.
#[derive(Clone, Copy)]
pub struct CoreState {
    /// Whether it is active, suspended or off.
    pub activity: Activity,
    /// The number of its last start that was seen to enter in this life, or 0.
    pub known: u32,
}

/// What becomes of a core.
#[derive(Clone, Copy)]
pub struct Change {
    /// What it does from now on.
    pub activity: Activity,
    /// The number of the start that was seen to enter, if there was one: without it the known start
    /// stays.
    pub started: Option<u32>,
}

/// A core that is off and was never started. A domain above the cores holds it without use.
pub const NEVER_STARTED: CoreState = CoreState {
    activity: Activity::Away,
    known: 0,
};

impl CoreState {
    /// The state after a change.
    pub fn changed(self, change: &Change) -> CoreState
        ensures { result ≡ core_changed change.now self }
    {
        CoreState {
            activity: change.activity,
            known: change.started.unwrap_or(self.known),
        }
    }

    /// The depth that the core asks of its domain of this level.
    pub fn ask(&self, level: u32) -> u8
        ensures value { result ≡ asks self.now.activity level }
        ensures least { result ≤ 3 }
    {
        match &self.activity {
            Activity::Active => 0,
            Activity::Suspended(ask) => ask.depth(level),
            Activity::Away => POWER_DOWN,
        }
    }

    /// Whether the core is running or pending.
    pub fn is_active(self) -> bool
        ensures { result ≡ is_active self.activity }
    {
        matches!(self.activity, Activity::Active)
    }

    /// Whether the core is off or going off.
    pub fn is_away(self) -> bool
        ensures { result ≡ is_away self.activity }
    {
        matches!(self.activity, Activity::Away)
    }
}
