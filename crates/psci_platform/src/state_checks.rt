//! Whether the states of a description can be those of a platform.

ghost use Rattle.std.specs.Prelude.{◌≡◌, ◌^◌, nat_le, nat_lt, [], ◌∷◌};
ghost use Rattle.psci_platform.specs.declared.class.TheConstants.{STATES};
ghost use Rattle.std.specs.List.{list_all};
ghost use Rattle.psci_platform.specs.Faults.{are_states, has_type, have_needs, is_power_state};
ghost use Rattle.psci_platform.specs.Faults.{is_running_above, is_system, never_falls, rises};

use crate::class::{LEVELS, STATES};
use crate::description::Description;
use crate::row::Row;
use crate::rows::{has_bits, state_type};
use crate::states::ask_of;
use psci_board::Format;
use psci_state::{Ask, POWER_DOWN};

/// The greatest number of a state.
const LAST_STATE: u8 = STATES as u8 - 1;

/// Bit 31, which marks a reset type of the vendor.
const VENDOR: u32 = 0x8000_0000;

impl Description {
    /// Whether the classes of all levels rise.
    pub fn rise(&self) -> bool
        ensures { result ≡ list_all (rises self.now) (0 ∷ 1 ∷ 2 ∷ 3 ∷ []) }
    {
        self.rises(0) && self.rises(1) && self.rises(2) && self.rises(3)
    }

    /// Whether state 0 of a level is running, and no class is shallower than that of the number
    /// before.
    fn rises(&self, level: usize) -> bool
        ensures { result ≡ rises self.now level }
    {
        self.depth(level, 0) == 0 && self.never_falls(level)
    }

    /// Whether no class of a level is shallower than that of the number before.
    #[tactic(auto, unfolding(crate::specs::Faults::never_falls))]
    fn never_falls(&self, level: usize) -> bool
        ensures { result ≡ never_falls self.now level }
    {
        (0..LAST_STATE).all(|number| self.depth(level, number) <= self.depth(level, number + 1))
    }

    /// Whether the row reads words that say power-down exactly where the core powers down.
    fn has_type(&self, format: Format, row: &Row) -> bool
        ensures { result ≡ has_type self.now format row.now }
    {
        let state_type = state_type(format);
        let is_deep = self.depth(0, row.states[0]) == POWER_DOWN;
        has_bits(row, state_type, if is_deep { state_type } else { 0 })
    }

    /// Whether all rows do so.
    pub fn have_types(&self, format: Format) -> bool
        ensures { result ≡ list_all (has_type self.now format) self.now.rows }
    {
        self.rows.iter().all(|row| self.has_type(format, row))
    }

    /// Whether the states of a row are a power state.
    fn is_power_state(&self, row: &Row) -> bool
        ensures { result ≡ is_power_state self.now row.now }
    {
        self.are_states(&row.states) && ask_of(self.depths_of(&row.states)).is_some()
    }

    /// Whether those of all rows are.
    pub fn are_power_states(&self) -> bool
        ensures { result ≡ list_all (is_power_state self.now) self.now.rows }
    {
        self.rows.iter().all(|row| self.is_power_state(row))
    }

    /// Whether all states are such as the platform has, and above its levels nothing is asked.
    fn are_states(&self, states: &[u8; LEVELS]) -> bool
        ensures { result ≡ are_states self.now states.now }
    {
        are_numbers(states) && is_running_above(states, self.levels)
    }

    /// Whether SYSTEM_SUSPEND powers down every level of a board of this height.
    pub fn is_system(&self, height: u32) -> bool
        ensures { result ≡ is_system self.now height }
    {
        let deepest = Ask::deepest(height);
        let [core, first, second, third] = self.depths_of(&self.system);
        self.are_states(&self.system)
            && core == deepest.depth(0)
            && first == deepest.depth(1)
            && second == deepest.depth(2)
            && third == deepest.depth(3)
    }

    /// Whether each function has those that it needs.
    pub fn have_needs(&self) -> bool
        ensures { result ≡ have_needs self.now }
    {
        let functions = self.functions;
        (functions.cpu_on || !functions.cpu_off)
            && (functions.cpu_suspend || !functions.system_suspend)
            && are_vendors(&self.resets)
            && (functions.system_reset2 || self.resets.is_empty())
    }
}

/// Whether all are numbers of states.
fn are_numbers(states: &[u8]) -> bool
    ensures { result ≡ list_all (λ n. nat_lt n STATES) states.now }
{
    states.iter().all(|number| usize::from(*number) < STATES)
}

/// Whether the states above these levels are running.
fn is_running_above(states: &[u8; LEVELS], levels: u32) -> bool
    ensures { result ≡ is_running_above levels states.now }
{
    let [_, first, second, third] = *states;
    (levels >= 1 || first == 0) && (levels >= 2 || second == 0) && (levels >= 3 || third == 0)
}

/// Whether all reset types are the vendor's own.
fn are_vendors(resets: &[u32]) -> bool
    ensures { result ≡ list_all (λ own. nat_le (2 ^ 31) own) resets.now }
{
    resets.iter().all(|own| *own >= VENDOR)
}
