//! A story is told of a firmware with a name.

ghost use Rattle.std.specs.Prelude.{◌≡◌, [], ◌∷◌, replicate};
ghost use Rattle.psci_board.specs.Board.{cores};
ghost use Rattle.psci_fw_spec.specs.declared.status.Status.TheVariants.{Off};
ghost use Rattle.psci_status.specs.Seats.{table, table_of_writer, written};

use crate::held::poll_while_held;
use crate::passes::{full_books, goes_off, serials_stay, statuses_are_read, three_calls, too_many};
use crate::threads::two_threads;
use psci_board::Board;
use psci_shared::{Named, SharedFirmware, StatusWords, Tickets, Writer};
use std::alloc::Global;
use std::marker::Brand;
use std::sync::Wait;
use std::sync::ledger::Blank;
use std::thread::Threads;

/// Two clusters of two cores.
pub(crate) const BOARD: &str =
    "(2 2) exec 0x40000000-0x40100000 boot 0x40000000 starts 1000 lives 3";

/// What is done.
#[derive(Clone, Copy)]
pub(crate) enum Story {
    /// Three calls by two passes are gathered.
    ThreeCalls,
    /// One pass of two is gathered.
    OneIsMissing,
    /// Books of no room and of one entry are full.
    FullBooks,
    /// More passes are asked for than there may be.
    TooMany,
    /// The statuses of cores are read without the lock.
    Statuses,
    /// A call that changes no status leaves the serials.
    Serials,
    /// A core goes off.
    GoesOff,
    /// Two threads make so many calls each.
    TwoThreads(u32),
    /// One thread polls while another one holds the lock.
    PolledWhileHeld,
}

/// Tells a story of this board's firmware, and whether all went as it has to.
pub(crate) fn told<R: Threads + Wait + Sync>(rt: &R, alloc: Global, story: Story) -> Option<bool> {
    let board = Board::read(alloc, BOARD).ok()?;
    let (words, writer) = StatusWords::new(alloc, &board).ok()?;
    let tickets = Tickets::new();
    tell::<Brand, R>(
        rt,
        alloc,
        story,
        room_of(story),
        &board,
        words,
        writer,
        &tickets,
        Blank::new(1001),
    )
}

/// For how many entries the story's book has room.
fn room_of(story: Story) -> u32 {
    match story {
        Story::FullBooks => 1,
        Story::TooMany => 0,
        _ => 100,
    }
}

fn tell<N: Named + Send + Sync, R: Threads + Wait + Sync>(
    rt: &R,
    alloc: Global,
    story: Story,
    room: u32,
    board: &Board,
    words: StatusWords,
    writer: Writer,
    tickets: &Tickets,
    blank: Blank,
) -> Option<bool>
    requires room { room ≡ N.room }
    requires board { board.now ≡ N.board }
    requires name { blank.name ≡ N.name }
    requires parts { (blank.parts ≡ N.parts) × (N.parts ≡ 1001) }
    requires words { (table words ≡ N.table) × (N.table.words ≡ cores N.board) }
    requires writer { (table_of_writer writer ≡ N.table)
        × (written writer ≡ replicate (cores N.board) (Off ∷ [])) }
{
    let shared = SharedFirmware::<N>::new(alloc, board, words, writer, room, tickets, blank).ok()?;
    match story {
        Story::ThreeCalls => three_calls(rt, alloc, shared, true),
        Story::OneIsMissing => three_calls(rt, alloc, shared, false),
        Story::FullBooks => full_books(rt, alloc, shared),
        Story::TooMany => too_many(rt, alloc, shared),
        Story::Statuses => statuses_are_read(rt, shared),
        Story::Serials => serials_stay(rt, shared),
        Story::GoesOff => goes_off(rt, shared),
        Story::TwoThreads(calls) => two_threads(rt, alloc, shared, calls),
        Story::PolledWhileHeld => poll_while_held(rt, shared),
    }
}
