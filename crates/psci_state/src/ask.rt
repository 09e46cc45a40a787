//! What a core asks of its power domains.

ghost use Rattle.std.specs.Prelude.{◌≡◌, ℕ, ◌≤◌, ◌<◌, ◌^◌, ◌↔◌, slice_index, if◌then◌else◌, IfOk};
ghost use Rattle.psci_state.specs.PowerState.{ask_of, asked, deepest_of, highest_of, id_of, is_ask};
ghost use Rattle.psci_state.specs.PowerState.{is_deep, is_state_id, IsAsk, word_of};

use crate::fault::BadState;
use crate::fields::{Fields, bits};
use psci_abi::Format;
use std::marker::Model;

/// The levels of an ask: the core's, 0, and three above it.
const LEVELS: usize = 4;

/// The depth of standby, the least of a core that stops.
const STANDBY: u8 = 1;

/// The deepest depth, power-down.
pub const POWER_DOWN: u8 = 3;

/// The depths that a suspending core asks for, one for each level from 0 to 3.
///
/// The core itself is asked to stop (1 to 3), and no level to go deeper than the one below it.
#[derive(Clone, Copy, Debug, PartialEq, Eq)]
pub struct Ask {
    depths: [u8; LEVELS],
}

impl Model for Ask {
    ghost use Rattle.std.specs.Prelude.{ℕ, List};
    ghost use Rattle.psci_state.specs.PowerState.{IsAsk};

    ghost Value = { List ℕ };

    ghost view = { λ a. a.depths };

    ghost invariant = { λ a. IsAsk a.depths };

    ghost inverse = { λ depths. record { depths = depths } };
}

impl Ask {
    /// The ask of a power state word of this format, on a board of this height.
    ///
    /// `BadState` where the word is no power state: INVALID_PARAMETERS of CPU_SUSPEND.
    pub fn read(word: u32, format: Format, height: u32) -> Result<Ask, BadState>
        ensures value { result ≡ ask_of format height word }

        // An ask that asks nothing above the height, and this is its word.
        ensures shape { IfOk result (λ ask. IsAsk ask) }
        ensures high { IfOk result (λ ask. highest_of ask ≤ height) }
        ensures back { IfOk result (λ ask. word_of format ask ≡ word) }
    {
        let fields = Fields::of(word, format);
        let ask = Ask::of_state_id(fields.state_id).ok_or(BadState)?;
        let highest = ask.highest();
        if fields.reserved_is_zero
            && highest <= height
            && fields.power_level.unwrap_or(highest) == highest
            && fields.state_type == u32::from(ask.deep())
        {
            Ok(ask)
        } else {
            Err(BadState)
        }
    }

    /// The ask of a state id.
    #[tactic(auto, using(crate::proofs::Words::ask_laws))]
    fn of_state_id(id: u32) -> Option<Ask>
        ensures { result ≡ (if is_state_id id then Some (asked id) else None) }
    {
        let depths = asked(id);
        if id < 1 << 16 && is_ask(depths) {
            Some(Ask { depths })
        } else {
            None
        }
    }

    /// Power-down at every level up to the height, and nothing above. There are no levels above 3.
    pub fn deepest(height: u32) -> Ask
        ensures value { result ≡ deepest_of height }
        ensures shape { IsAsk result }
    {
        let depths = match height {
            0 => [POWER_DOWN, 0, 0, 0],
            1 => [POWER_DOWN, POWER_DOWN, 0, 0],
            2 => [POWER_DOWN, POWER_DOWN, POWER_DOWN, 0],
            _ => [POWER_DOWN; LEVELS],
        };
        Ask { depths }
    }

    /// The depth that is asked at a level, 0 where nothing is.
    pub fn depth(self, level: u32) -> u8
        ensures value { result ≡ slice_index self level }

        // Every ask has this shape.
        ensures shape { IsAsk self }
    {
        self.depths.get(level as usize).copied().unwrap_or(0)
    }

    /// The depths that are asked, where they stand: each at the place of its level.
    pub fn depths(&self) -> &[u8; LEVELS]
        ensures { result.now ≡ self.now }
    {
        &self.depths
    }

    /// The highest level of which something is asked.
    pub fn highest(self) -> u32
        ensures value { result ≡ highest_of self }
        ensures asked { (level : ℕ) → (0 < slice_index self level) ↔ (level ≤ result) }
    {
        match self.depths {
            [_, 0, ..] => 0,
            [_, _, 0, _] => 1,
            [_, _, _, 0] => 2,
            _ => 3,
        }
    }

    /// Whether the core powers down, so that it starts again at an entry point.
    pub fn deep(self) -> bool
        ensures { result ≡ is_deep self }
    {
        self.depths[0] == POWER_DOWN
    }

    /// The power state word of this ask in a format. There is one in each.
    pub fn word(self, format: Format) -> u32
        ensures value { result ≡ word_of format self }

        // It is a power state of every board that is high enough.
        ensures accepted { (height : ℕ) → highest_of self ≤ height
            → ask_of format height result ≡ Ok self }
    {
        let state_type = u32::from(self.deep());
        match format {
            Format::Original => self.state_id() + (state_type << 16) + (self.highest() << 24),
            Format::Extended => self.state_id() + (state_type << 30),
        }
    }

    /// The state id of this ask.
    fn state_id(self) -> u32
        ensures value { result ≡ id_of self }
        ensures small { result < 2 ^ 16 }
        ensures shape { IsAsk self }
    {
        let [core, first, second, third] = self.depths;
        u32::from(core)
            + (u32::from(first) << 4)
            + (u32::from(second) << 8)
            + (u32::from(third) << 12)
    }
}

/// The depths that a state id asks, four bits for each level.
fn asked(id: u32) -> [u8; LEVELS]
    ensures { result ≡ asked id }
{
    [
        bits(id, 3, 0) as u8,
        bits(id, 7, 4) as u8,
        bits(id, 11, 8) as u8,
        bits(id, 15, 12) as u8,
    ]
}

/// Whether these depths are an ask: the core stops, and none grows upwards.
fn is_ask(depths: [u8; LEVELS]) -> bool
    ensures { result ≡ is_ask depths }
{
    let [core, first, second, third] = depths;
    (STANDBY..=POWER_DOWN).contains(&core) && first <= core && second <= first && third <= second
}
