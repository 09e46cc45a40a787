//! A poll: AFFINITY_INFO of a core, without the lock.

ghost use Rattle.std.specs.Prelude.{◌≡◌};
ghost use Rattle.psci_board.specs.Board.{core_of, cores};
ghost use Rattle.psci_status.specs.Seats.{seen, table, table_of_reader};
ghost use Rattle.psci_status.specs.Lists.{IsPolledAs};

use crate::seats::{Reader, StatusWords};
use psci_board::Board;
use psci_fw::Code;

/// What AFFINITY_INFO answers for a core, by one load of its status word: no lock is taken. It is
/// INVALID_PARAMETERS exactly where the word names no core of the board.
pub fn affinity_core(words: &StatusWords, board: &Board, reader: &mut Reader, word: u64) -> Code
    requires words { (table words.now).words ≡ cores board.now }
    requires reader { table_of_reader reader.old ≡ table words.now }
    ensures answer { IsPolledAs (core_of board.now word) (seen reader.old) (seen reader.new)
        result }
    ensures reader { table_of_reader reader.new ≡ table_of_reader reader.old }
{
    match board.core_of(word) {
        Some(core) => words.get(reader, core).code(),
        None => Code::INVALID_PARAMETERS,
    }
}
