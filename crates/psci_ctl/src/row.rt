//! What the power controller keeps of one core.

ghost use Rattle.std.specs.Prelude.{◌≡◌, ◌<◌, ◌/◌, ◌^◌, length, replicate, IfOk};
ghost use Rattle.psci_board.specs.Board.{cores};
ghost use Rattle.psci_ctl.specs.Rows.{off_core};
ghost use Rattle.psci_ctl.specs.Saved.{cause_number, cause_of, core_of, core_word};

use psci_board::{Board, Memory};
use psci_ctl_spec::Cause;
use std::alloc::Global;

/// What the power controller keeps of one core.
#[derive(Clone, Copy)]
pub struct CoreRow {
    /// How many times it was started in this life.
    pub starts: u32,
    /// Why it was last started, if it was.
    pub cause: Cause,
}

impl CoreRow {
    /// The row of a core that was not started in this life.
    pub const OFF: CoreRow = CoreRow {
        starts: 0,
        cause: Cause::Boot,
    };

    /// The row as a word.
    pub fn word(&self) -> u64
        ensures { result ≡ core_word self.now }
    {
        u64::from(self.starts) * 4 + cause_number(self.cause)
    }

    /// The row of such a word.
    pub fn of_word(word: u64) -> CoreRow
        requires { word / 4 < 2 ^ 32 }
        ensures { result ≡ core_of word }
    {
        CoreRow {
            starts: (word / 4) as u32,
            cause: cause_of(word % 4),
        }
    }
}

/// The number of a cause.
fn cause_number(cause: Cause) -> u64
    ensures { result ≡ cause_number cause }
{
    match cause {
        Cause::Boot => 0,
        Cause::On => 1,
        Cause::Wake => 2,
        Cause::Reset => 3,
    }
}

/// The cause of this number.
fn cause_of(number: u64) -> Cause
    ensures { result ≡ cause_of number }
{
    match number {
        0 => Cause::Boot,
        1 => Cause::On,
        2 => Cause::Wake,
        _ => Cause::Reset,
    }
}

/// A row for each core of the board, of which none was started.
pub fn off_cores(alloc: Global, board: &Board) -> Result<Vec<CoreRow>, Memory>
    ensures { IfOk result (λ rows. length rows.items ≡ cores board.now) }
{
    let mut rows = Vec::with_capacity(alloc, board.cores() as usize)?;
    for _core in 0..board.cores() {
        rows.push(CoreRow::OFF)?;
    }
    Ok(rows)
}

/// Forgets all starts.
pub fn forget_starts(cores: &mut [CoreRow])
    ensures { cores.new ≡ replicate (length cores.old) off_core }
{
    cores.fill(CoreRow::OFF);
}
