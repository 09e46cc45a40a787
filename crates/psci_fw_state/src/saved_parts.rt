//! The state's own words: its heading, and the rows of its cores.

ghost use Rattle.std.specs.Prelude.{◌*◌, ◌++◌, ◌+◌, ◌∷◌, ◌≡◌, ◌≤◌, [], flat_map, length, map, take};
ghost use Rattle.std.specs.Prelude.{true};
ghost use Rattle.psci_board.specs.Board.{cores};
ghost use Rattle.psci_fw_state.specs.Counts.{AreCounted, AreCounts};
ghost use Rattle.psci_fw_state.specs.Rows.{status_at};
ghost use Rattle.psci_fw_state.specs.Saved.{are_rows, flag, is_row, mode_number, mode_of};
ghost use Rattle.psci_fw_state.specs.Saved.{opening_of, row_words, status_of};
ghost use Rattle.psci_fw_spec.specs.PowerCalls.{status_code};

use crate::counts::{StatusCounts, put_row};
use crate::row::CoreRow;
use psci_board::{Board, Core};
use psci_fw_spec::{Opening, Status, SuspendMode};
use psci_messages::write;
use psci_tree::Tree;

/// The first word: the format's letters, `psfw`, and its version, 1.
pub const FORMAT: u64 = 0x1_7766_7370;

/// How many words stand before the parts: the format, the sum, the life, whether it is halting, and
/// the mode.
pub const HEADING: usize = 5;

/// How many words the tree has of a core: what it does, and its known start.
pub const CORE_WORDS: usize = 2;

/// How many words the tree has of a domain: its granted depth, and the confirmed one.
pub const DOMAIN_WORDS: usize = 2;

/// How many words a core's row has: its status, and whether and where it goes on.
pub const ROW_WORDS: usize = 4;

/// Writes the rows of the cores, from this place on.
pub fn save_rows(rows: &[CoreRow], words: &mut [u64], start: usize)
    requires { start + 4 * length rows.now ≤ length words.old }
    ensures { take (start + 4 * length rows.now) words.new
        ≡ take start words.old ++ flat_map row_words rows.now }
{
    for core in 0..rows.len() {
        let own = row_words(rows[core]);
        write(&own, words, start + ROW_WORDS * core);
    }
}

/// A row as words.
fn row_words(row: CoreRow) -> [u64; ROW_WORDS]
    ensures { result ≡ row_words row }
{
    let status = status_code(row.status);
    match row.opening {
        Some(opening) => [status, 1, opening.address, opening.context],
        None => [status, 0, 0, 0],
    }
}

/// The number of a status.
fn status_code(status: Status) -> u64
    ensures { result ≡ status_code status }
{
    match status {
        Status::On => 0,
        Status::Off => 1,
        Status::Pending => 2,
    }
}

/// 1 where something is so, and 0 where it is not.
pub fn flag(so: bool) -> u64
    ensures { result ≡ flag so }
{
    if so { 1 } else { 0 }
}

/// Who coordinates, as a number.
pub fn mode_number(mode: SuspendMode) -> u64
    ensures { result ≡ mode_number mode }
{
    match mode {
        SuspendMode::Platform => 0,
        SuspendMode::OsInitiated => 1,
    }
}

/// The mode of this number.
pub fn mode_of(number: u64) -> SuspendMode
    ensures { result ≡ mode_of number }
{
    if number == 0 {
        SuspendMode::Platform
    } else {
        SuspendMode::OsInitiated
    }
}

/// Whether these are the words of some rows.
pub fn are_rows(words: &[u64]) -> bool
    ensures { result ≡ are_rows words.now }
{
    let mut rest = words;
    for _ in 0..words.len() {
        let [status, some, address, context, others @ ..] = rest else {
            return rest.is_empty();
        };
        if !is_row(*status, *some, *address, *context) {
            return false;
        }
        rest = others;
    }
    rest.is_empty()
}

/// Whether these are the words of a row.
fn is_row(status: u64, some: u64, address: u64, context: u64) -> bool
    ensures { result ≡ is_row status some address context }
{
    status <= 2 && (some == 1 || (some == 0 && address == 0 && context == 0))
}

/// Keeps the rows that were saved as these words, and counts their statuses.
pub fn load_rows(
    rows: &mut [CoreRow],
    counts: &mut [Vec<StatusCounts>],
    tree: &Tree,
    board: &Board,
    words: &[u64],
)
    requires levels { tree.now.levels ≡ board.now.levels }
    requires counts { AreCounted board.now (status_at rows.old) rows.old
        (map (λ v. v.items) counts.old) }
    requires count { length words.now ≡ 4 * cores board.now }
    requires rows { are_rows words.now ≡ true }
    ensures rows { flat_map row_words rows.new ≡ words.now }
    ensures counts { AreCounts board.now.levels (status_at rows.new)
        (map (λ v. v.items) counts.new) }
{
    let mut rest = words;
    for number in 0..board.cores() {
        let [status, some, address, context, others @ ..] = rest else {
            return;
        };
        let row = row(*status, *some, *address, *context);
        put_row(rows, counts, tree, board, Core { number }, row);
        rest = others;
    }
}

/// The row of these words.
fn row(status: u64, some: u64, address: u64, context: u64) -> CoreRow
    requires { is_row status some address context ≡ true }
    ensures { row_words result ≡ status ∷ some ∷ address ∷ context ∷ [] }
{
    CoreRow {
        status: status_of(status),
        opening: opening_of(some, address, context),
    }
}

/// The status of this number.
fn status_of(number: u64) -> Status
    ensures { result ≡ status_of number }
{
    match number {
        0 => Status::On,
        1 => Status::Off,
        _ => Status::Pending,
    }
}

/// The opening of these words.
fn opening_of(some: u64, address: u64, context: u64) -> Option<Opening>
    ensures { result ≡ opening_of some address context }
{
    if some == 0 {
        return None;
    }
    Some(Opening { address, context })
}
