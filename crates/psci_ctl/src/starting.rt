//! Starts of cores, row by row.

ghost use Rattle.std.specs.Prelude.{◌≡◌, ◌<◌, ℕ, length, Option};
ghost use Rattle.psci_board.specs.Board.{cores};
ghost use Rattle.psci_ctl_spec.specs.Replies.{with_start};
ghost use Rattle.psci_ctl_spec.specs.Values.{start_of_life};
ghost use Rattle.psci_ctl.specs.Rows.{values_in, AreRows, HasRows, HaveRoom};

use crate::domains::{run_path, turn_off};
use crate::level::Level;
use crate::row::{CoreRow, forget_starts};
use psci_board::{Board, Core, law_sizes};
use psci_ctl_spec::Cause;

/// The core that a life begins with.
const BOOT_CORE: Core = Core { number: 0 };

/// A core is started: its start is counted, and its path is fully on.
pub fn start_core(
    board: &Board,
    rows: &mut [CoreRow],
    levels: &mut [Level],
    core: Core,
    cause: Cause,
)
    requires core { core.number < cores board.now }
    requires rows { AreRows board.now rows.old levels.old }
    requires room { HaveRoom rows.old core.number }
    ensures rows { AreRows board.now rows.new levels.new }
    ensures values { (life : Option ℕ) → values_in life rows.new levels.new
        ≡ with_start board.now core.number cause (values_in life rows.old levels.old) }
{
    law_sizes();
    let cores = board.cores();
    prove!(core.number < cores);
    run_path(levels, board, core);
    let number = core.number as usize;
    rows[number] = CoreRow {
        starts: rows[number].starts + 1,
        cause,
    };
}

/// A life begins: the boot core is started, every other core and domain is off.
pub fn begin_life(board: &Board, rows: &mut [CoreRow], levels: &mut [Level])
    requires count { length rows.old ≡ cores board.now }
    requires shape { HasRows board.now levels.old }
    ensures rows { AreRows board.now rows.new levels.new }
    ensures values { (life : Option ℕ) → values_in life rows.new levels.new
        ≡ record (start_of_life board.now) { life = life } }
{
    law_sizes();
    let cores = board.cores();
    prove!(0 < cores);
    forget_starts(rows);
    turn_off(levels, board);
    start_core(board, rows, levels, BOOT_CORE, Cause::Boot);
}
