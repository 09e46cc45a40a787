//! The statuses of the cores are written, once a call is entered.

ghost use Rattle.std.specs.Prelude.{◌≡◌, ℕ, ◌<◌, ◌^◌, length};
ghost use Rattle.psci_fw.specs.psci_board.Board.{cores};
ghost use Rattle.psci_status.specs.Lists.{row};
ghost use Rattle.psci_status.specs.Seats.{table, table_of_writer, written};
ghost use Rattle.psci_shared.specs.Passes.{IsOneBehind, written_after};

use crate::firmware::FwBook;
use crate::named::Named;
use psci_status::{Core, StatusWords, Writer, write_changed};

/// Writes what the last call has changed of the statuses, by the life before it and the core that
/// it may name. One that names no core has changed none, and has begun no life.
pub(crate) fn write_all<N: Named, A>(
    words: &StatusWords,
    writer: &mut Writer,
    book: &FwBook<N>,
    before: u32,
    named: Option<Core>,
    count: u16,
)
    requires cores { (count ≡ cores N.board) × (N.table.words ≡ cores N.board)
        × (table words.now ≡ N.table) × (table_of_writer writer.old ≡ N.table) }
    requires few { (core : ℕ) → core < cores N.board
        → length (row (written writer.old) core) < 2 ^ 60 }
    requires behind { IsOneBehind N.board (written writer.old) book.now.entries before named }
    ensures table { table_of_writer writer.new ≡ N.table }
    ensures log { (core : ℕ) → core < cores N.board → row (written writer.new) core
        ≡ written_after N.board book.now.entries before core (row (written writer.old) core) }
{
    if named.is_none() {
        return;
    }
    write_changed(words, writer, book.firmware(), before, named, count);
}
