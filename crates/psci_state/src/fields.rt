//! The fields of a power state word.

ghost use Rattle.std.specs.Prelude.{◌≡◌, ◌+◌, ◌≤◌, ◌<◌};
ghost use Rattle.psci_state.specs.PowerState.{bits, power_level, reserved_is_zero, state_id};
ghost use Rattle.psci_state.specs.PowerState.{state_type};

use psci_abi::Format;

/// The fields of the parameter power_state of CPU_SUSPEND.
#[derive(Clone, Copy)]
pub struct Fields {
    /// StateID.
    pub state_id: u32,
    /// StateType: 0 standby or retention, 1 power-down.
    pub state_type: u32,
    /// PowerLevel, which only the original format has.
    pub power_level: Option<u32>,
    /// Whether the reserved bits are zero.
    pub reserved_is_zero: bool,
}

impl Fields {
    /// The fields of a word of this format.
    pub fn of(word: u32, format: Format) -> Fields
        ensures state_id { result.state_id ≡ state_id format word }
        ensures state_type { result.state_type ≡ state_type format word }
        ensures power_level { result.power_level ≡ power_level format word }
        ensures reserved { result.reserved_is_zero ≡ reserved_is_zero format word }
    {
        match format {
            Format::Original => Fields {
                state_id: bits(word, 15, 0),
                state_type: bits(word, 16, 16),
                power_level: Some(bits(word, 25, 24)),
                reserved_is_zero: bits(word, 31, 26) == 0 && bits(word, 23, 17) == 0,
            },
            Format::Extended => Fields {
                state_id: bits(word, 27, 0),
                state_type: bits(word, 30, 30),
                power_level: None,
                reserved_is_zero: bits(word, 31, 31) == 0 && bits(word, 29, 28) == 0,
            },
        }
    }
}

/// The bits of a word from `high` down to `low`, as a number.
pub fn bits(word: u32, high: u32, low: u32) -> u32
    requires low { low ≤ high }
    requires high { high < low + 31 }
    requires word { high < 32 }
    ensures { result ≡ bits word high low }
{
    (word >> low) % (1 << (high + 1 - low))
}
