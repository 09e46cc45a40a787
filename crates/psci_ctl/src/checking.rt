//! Whether words are a saved power controller.

ghost use Rattle.std.specs.Prelude.{◌+◌, ◌/◌, ◌==◌, ◌^◌, ◌≡◌, ◌≤◌, if◌then◌else◌, length};
ghost use Rattle.std.specs.Prelude.{MatchResult, nat_le, None, Some, ℕ};
ghost use Rattle.std.specs.List.{list_all};
ghost use Rattle.psci_messages.specs.psci_state.PowerState.{power_down};
ghost use Rattle.psci_board.specs.Board.{IsBoard, cores};
ghost use Rattle.psci_ctl.specs.Saved.{are_starts, level_sizes, row_count, row_fault, saved_fault};

use crate::fault::SavedFault;
use crate::saving::{FORMAT, sum_of};
use psci_board::{Board, law_sizes};
use psci_state::POWER_DOWN;

/// The depth of power-down.
const DEEPEST: u64 = POWER_DOWN as u64;

/// How many words are saved beside those of the rows: the format, the sum and the life.
pub const HEADING: usize = 3;

/// Whether words are a saved power controller of this board, or why they are none.
#[tactic(auto, unfolding(crate::specs::Saved::saved_fault))]
pub fn check(board: &Board, words: &[u64]) -> Result<(), SavedFault>
    ensures { let fault = saved_fault board.now words.now in
        MatchResult result (λ _. fault ≡ None) (λ e. fault ≡ Some e) }
{
    let [format, sum, life, rows @ ..] = words else {
        return Err(SavedFault::Length);
    };
    if rows.len() != row_count(board) {
        return Err(SavedFault::Length);
    }
    if *format != FORMAT {
        return Err(SavedFault::Format);
    }
    if *sum != sum_of(&words[2..]) {
        return Err(SavedFault::Sum);
    }
    let (own, depths) = rows.split_at(board.cores() as usize);
    check_rows(board, *life, own, depths)
}

/// The same of the life and the rows.
fn check_rows(board: &Board, life: u64, own: &[u64], depths: &[u64]) -> Result<(), SavedFault>
    requires { length own.now ≡ cores board.now }
    ensures { let fault = row_fault board.now life own.now depths.now in
        MatchResult result (λ _. fault ≡ None) (λ e. fault ≡ Some e) }
{
    if life > u64::from(board.life_limit()) {
        return Err(SavedFault::Life);
    }
    if !are_starts(board, life, own) {
        return Err(SavedFault::Starts);
    }
    if !are_depths(depths) {
        return Err(SavedFault::Depth);
    }
    Ok(())
}

/// Whether cores may be started so often in this life: none without a life, and in a life the boot
/// core.
fn are_starts(board: &Board, life: u64, own: &[u64]) -> bool
    requires { length own.now ≡ cores board.now }
    ensures { result ≡ are_starts board.now life own.now }
{
    law_sizes();
    let cores = board.cores();
    prove!(0 < cores);
    are_few(own, most_starts(board, life)) && (life == 0 || own[0] / 4 > 0)
}

/// How many starts a core may have in this life.
fn most_starts(board: &Board, life: u64) -> u64
    ensures { result ≡ (if life == 0 then 0 else board.now.starts) }
{
    if life == 0 {
        0
    } else {
        u64::from(board.start_limit())
    }
}

/// Whether the words of cores have so many starts at most.
fn are_few(own: &[u64], most: u64) -> bool
    ensures { result ≡ list_all (λ w. nat_le (w / 4) most) own.now }
{
    own.iter().all(|word| *word / 4 <= most)
}

/// Whether all these are depths.
fn are_depths(depths: &[u64]) -> bool
    ensures { result ≡ list_all (λ d. nat_le d power_down) depths.now }
{
    depths.iter().all(|depth| *depth <= DEEPEST)
}

/// How many words the rows of a board's power controller have.
pub fn row_count(board: &Board) -> usize
    ensures count { result ≡ row_count board.now }
    ensures few { result ≤ 2 ^ 50 }
    ensures board { IsBoard board.now }
{
    law_sizes();
    let mut count = board.cores() as usize;
    for level in 0..board.height() + 1 {
        count += board.nodes(level) as usize;
    }
    count
}
