//! What the words of a platform's rows are to the firmware, found out once.

ghost use Rattle.std.specs.Prelude.{◌≡◌, IfOk, find, map, option_map};
ghost use Rattle.psci_platform.specs.States.{can_ask_by, reading_of, reads};

use crate::class::LEVELS;
use crate::description::Description;
use crate::row::Row;
use psci_board::{Format, Memory};
use psci_fw_spec::SuspendMode;
use std::alloc::Global;

/// A row, and what its words are to the firmware.
#[derive(Clone, Copy, Debug, PartialEq, Eq)]
pub struct Reading {
    /// The row.
    pub row: Row,
    /// The word of the board for its states.
    pub word: u32,
    /// Whether its states can be asked for in platform-coordinated mode.
    pub is_first: bool,
}

impl Reading {
    /// Whether its states can be asked for in this mode.
    pub fn can_ask(&self, mode: SuspendMode) -> bool
        ensures { result ≡ can_ask_by self.now mode }
    {
        self.is_first || mode == SuspendMode::OsInitiated
    }
}

impl Description {
    /// The rows, and what their words are to the firmware.
    #[inline(never)]
    pub(crate) fn readings(&self, alloc: Global, format: Format) -> Result<Vec<Reading>, Memory>
        ensures { IfOk result (λ readings. readings.items
            ≡ map (reading_of self.now format) self.now.rows) }
    {
        let mut readings = Vec::with_capacity(alloc, self.rows.len())?;
        for row in &self.rows {
            readings.push(self.reading(format, row))?;
        }
        Ok(readings)
    }

    /// A row, and what its words are to the firmware.
    fn reading(&self, format: Format, row: &Row) -> Reading
        ensures { result ≡ reading_of self.now format row.now }
    {
        Reading {
            row: *row,
            word: self.word_for(format, Some(row.states)),
            is_first: self.can_ask(SuspendMode::Platform, &row.states),
        }
    }
}

/// The reading of the first row that reads a word.
#[inline(always)]
pub fn reader_in(readings: &[Reading], word: u32) -> Option<&Reading>
    ensures { option_map (λ reading. reading.now) result
        ≡ find (λ reading. reads word reading.row) readings.now }
{
    readings
        .iter()
        .find(|reading| word & reading.row.mask == reading.row.word)
}
