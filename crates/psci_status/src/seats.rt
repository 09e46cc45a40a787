//! The status words and their seats.

ghost use Rattle.std.specs.Prelude.{◌≡◌, ◌<◌, [], length, true, false};

use crate::rule::{StatusRule, View};
use atomic_table::{Seat, Table};
use psci_fw_spec::Status;
use std::alloc::Global;

/// The status words of a board, one for each core.
#[derive(Drop)]
pub struct StatusWords {
    pub(crate) table: Table<(), View, u64, StatusRule, Global>,
    ghost cores: { table.shared.key ≡ table.shared.table_id.words },
    ghost some: { 0 < table.shared.table_id.words },
}

/// The one seat that writes the status words of a firmware.
#[derive(Drop)]
pub struct Writer {
    pub(crate) seat: Seat<(), View>,
    ghost empty: { seat.me.1 ≡ [] },
    ghost writes: { seat.me.0.writer ≡ true },
    ghost long: { length seat.me.0.log ≡ seat.table_id.words },
}

/// A seat that reads status words.
#[derive(Drop)]
pub struct Reader {
    pub(crate) seat: Seat<(), View>,
    ghost empty: { seat.me.1 ≡ [] },
    ghost reads: { seat.me.0.writer ≡ false },
    ghost long: { length seat.me.0.seen ≡ seat.table_id.words },
}

/// What one load of a word tells: a status with its serial.
#[derive(Clone, Copy, Debug, PartialEq)]
pub struct Reading {
    /// How many statuses were written of the core before it.
    pub serial: u64,
    /// The status.
    pub status: Status,
}
