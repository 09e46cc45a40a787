//! Which firmware a value is of.

use std::marker::Brand;
use std::sync::ledger::Ledger;

/// One firmware: its ledger, its board, its table of status words and for how many entries its book
/// has room. A pass of another firmware
/// has another type.
pub trait Named: Ledger {
    ghost use Rattle.std.specs.Prelude.{ℕ};
    ghost use Rattle.psci_fw.specs.psci_board.Board.{BoardValue};
    ghost use Rattle.atomic_table.specs.Seated.{TableId};

    ghost board: { BoardValue };

    ghost table: { TableId };

    ghost room: { ℕ };
}

impl Named for Brand {
    ghost use Rattle.psci_shared.specs.Locked.{no_board, no_table};

    ghost board = { no_board };

    ghost table = { no_table };

    ghost room = { 0 };
}
