//! What is entered before a pass is made: nothing. By the public clauses alone no other answer can
//! come.

ghost use Rattle.std.specs.Prelude.{◌≡◌, [], ◌∷◌, IfSome, replicate};
ghost use Rattle.psci_board.specs.Board.{cores};
ghost use Rattle.psci_fw_spec.specs.declared.status.Status.TheVariants.{Off};
ghost use Rattle.psci_status.specs.Seats.{table, table_of_writer, written};

use crate::named::BOARD;
use psci_board::Board;
use psci_shared::{Named, SharedController, SharedFirmware, StatusWords, Tickets, Writer};
use std::alloc::Global;
use std::marker::Brand;
use std::sync::ledger::Blank;

/// How many entries a new firmware of this board has, whose memory was touched.
pub(crate) fn entries_of_firmware(alloc: Global) -> Option<u32>
    ensures { IfSome result (λ entries. entries ≡ 0) }
{
    let board = Board::read(alloc, BOARD).ok()?;
    let (words, writer) = StatusWords::new(alloc, &board).ok()?;
    let tickets = Tickets::new();
    gathered_firmware::<Brand>(alloc, &board, words, writer, &tickets, Blank::new(1001))
}

fn gathered_firmware<N: Named>(
    alloc: Global,
    board: &Board,
    words: StatusWords,
    writer: Writer,
    tickets: &Tickets,
    blank: Blank,
) -> Option<u32>
    requires room { N.room ≡ 2 }
    requires board { board.now ≡ N.board }
    requires name { blank.name ≡ N.name }
    requires parts { (blank.parts ≡ N.parts) × (N.parts ≡ 1001) }
    requires words { (table words ≡ N.table) × (N.table.words ≡ cores N.board) }
    requires writer { (table_of_writer writer ≡ N.table)
        × (written writer ≡ replicate (cores N.board) (Off ∷ [])) }
    ensures { IfSome result (λ entries. entries ≡ 0) }
{
    let mut shared = SharedFirmware::<N>::new(alloc, board, words, writer, 2, tickets, blank).ok()?;
    shared.touch();
    let Ok(books) = shared.gather(Vec::new(alloc)) else {
        unreachable!();
    };
    if books.book.room() != 2 {
        return None;
    }
    Some(books.book.len())
}

/// How many entries a new power controller of this board has.
pub(crate) fn entries_of_controller(alloc: Global) -> Option<u32>
    ensures { IfSome result (λ entries. entries ≡ 0) }
{
    let board = Board::read(alloc, BOARD).ok()?;
    let tickets = Tickets::new();
    gathered_controller::<Brand>(alloc, &board, &tickets, Blank::new(1001))
}

fn gathered_controller<N: Named>(
    alloc: Global,
    board: &Board,
    tickets: &Tickets,
    blank: Blank,
) -> Option<u32>
    requires room { N.room ≡ 2 }
    requires board { board.now ≡ N.board }
    requires name { blank.name ≡ N.name }
    requires parts { (blank.parts ≡ N.parts) × (N.parts ≡ 1001) }
    ensures { IfSome result (λ entries. entries ≡ 0) }
{
    let shared = SharedController::<N>::new(alloc, board, 2, tickets, blank).ok()?;
    let Ok(books) = shared.gather(Vec::new(alloc)) else {
        unreachable!();
    };
    Some(books.book.len())
}
