//! Power state words of a platform, and the words of the board for them.

ghost use Rattle.std.specs.Prelude.{◌<◌, ◌^◌, ◌≡◌, ◌≤◌, find, if◌then◌else◌, None, option_map};
ghost use Rattle.std.specs.Prelude.{slice_index, Some, ℕ};
ghost use Rattle.psci_state.specs.PowerState.{id_of, is_ask, power_down, word_of};
ghost use Rattle.psci_abi.specs.declared.registers.Format.TheVariants.{Extended};
ghost use Rattle.psci_platform.specs.States.{can_ask, depth_at, depths_of, is_deeper, reads};
ghost use Rattle.psci_platform.specs.States.{row_of, states_of, word_asking, word_for};

use crate::class::{Class, LEVELS};
use crate::description::Description;
use crate::row::Row;
use psci_board::{Format, MOST_LEVELS};
use psci_fw_spec::SuspendMode;
use psci_state::{Ask, POWER_DOWN, law_power_states};

/// A word that is no power state in either format.
pub const NO_STATE: u32 = 0xFFFF_FFFF;

/// StateType in the extended format: power-down.
const POWER_DOWN_TYPE: u32 = 0x4000_0000;

impl Description {
    /// The states of a word, if it is one of the platform that can be asked for in this mode.
    pub fn states_of(&self, mode: SuspendMode, word: u32) -> Option<[u8; LEVELS]>
        ensures { result ≡ states_of self.now mode word }
    {
        let row = self.row_of(word)?;
        self.can_ask(mode, &row.states).then_some(row.states)
    }

    /// The row of a word.
    fn row_of(&self, word: u32) -> Option<Row>
        ensures { result ≡ row_of self.now word }
    {
        match reader_of(&self.rows, word) {
            Some(row) => Some(*row),
            None => None,
        }
    }

    /// Whether states can be asked for in this mode.
    pub fn can_ask(&self, mode: SuspendMode, states: &[u8; LEVELS]) -> bool
        ensures { result ≡ can_ask self.now mode states.now }
    {
        match mode {
            SuspendMode::OsInitiated => true,
            SuspendMode::Platform => {
                !(self.is_deeper(1, states[1])
                    || self.is_deeper(2, states[2])
                    || self.is_deeper(3, states[3]))
            }
        }
    }

    /// Whether a state is not the first one of its class.
    fn is_deeper(&self, level: usize, number: u8) -> bool
        ensures { result ≡ is_deeper self.now level number }
    {
        number > 0 && self.depth(level, number) == self.depth(level, number - 1)
    }

    /// The depth of a state of a level.
    pub fn depth(&self, level: usize, number: u8) -> u8
        ensures depth { result ≡ depth_at self.now level number }
        ensures most { result ≤ power_down }
    {
        match self.classes.levels.get(level) {
            Some(classes) => match classes.get(number as usize) {
                Some(class) => class.depth(),
                None => Class::PowerDown.depth(),
            },
            None => Class::PowerDown.depth(),
        }
    }

    /// The depths of the states of all levels.
    pub fn depths_of(&self, states: &[u8; LEVELS]) -> [u8; LEVELS]
        ensures depths { result ≡ depths_of self.now states.now }
        ensures most { (level : ℕ) → slice_index result level ≤ power_down }
    {
        [
            self.depth(0, states[0]),
            self.depth(1, states[1]),
            self.depth(2, states[2]),
            self.depth(3, states[3]),
        ]
    }

    /// The word of the board for these states.
    pub fn word_for(&self, format: Format, states: Option<[u8; LEVELS]>) -> u32
        ensures { result ≡ word_for self.now format states }
    {
        match states {
            Some(states) => word_asking(self.depths_of(&states), format),
            None => NO_STATE,
        }
    }
}

/// The first row that reads a word.
fn reader_of(rows: &[Row], word: u32) -> Option<&Row>
    ensures { option_map (λ row. row.now) result ≡ find (reads word) rows.now }
{
    rows.iter().find(|row| reads(word, row))
}

/// Whether a row reads a word.
fn reads(word: u32, row: &Row) -> bool
    ensures { result ≡ reads word row.now }
{
    word & row.mask == row.word
}

/// The word of the board that asks these depths.
fn word_asking(depths: [u8; LEVELS], format: Format) -> u32
    requires { (level : ℕ) → slice_index depths level ≤ power_down }
    ensures { result ≡ word_asking format depths }
{
    match ask_of(depths) {
        Some(ask) => ask.word(format),
        None => NO_STATE,
    }
}

/// The ask of these depths, if they are one.
pub fn ask_of(depths: [u8; LEVELS]) -> Option<Ask>
    requires { (level : ℕ) → slice_index depths level ≤ power_down }
    ensures { result ≡ (if is_ask depths then Some depths else None) }
{
    law_power_states();
    Ask::read(extended_word(depths), Format::Extended, MOST_LEVELS as u32).ok()
}

/// The word of the extended format with these depths.
fn extended_word(depths: [u8; LEVELS]) -> u32
    requires { (level : ℕ) → slice_index depths level ≤ power_down }
    ensures { result ≡ word_of Extended depths }
{
    let id = state_id(depths);
    if depths[0] == POWER_DOWN {
        id + POWER_DOWN_TYPE
    } else {
        id
    }
}

/// The state id of these depths: four bits for each level.
fn state_id(depths: [u8; LEVELS]) -> u32
    requires { (level : ℕ) → slice_index depths level ≤ power_down }
    ensures id { result ≡ id_of depths }
    ensures small { result < 2 ^ 16 }
{
    let [core, first, second, third] = depths;
    u32::from(core) + (u32::from(first) << 4) + (u32::from(second) << 8) + (u32::from(third) << 12)
}
