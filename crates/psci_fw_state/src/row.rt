//! What the state keeps of one core beside the tree of power domains.

ghost use Rattle.std.specs.Prelude.{◌≡◌, length, slice_set, IfOk};
ghost use Rattle.psci_board.specs.Board.{cores};
ghost use Rattle.psci_fw_state.specs.Rows.{AreFirst, first_row, row_at};

use psci_board::{Board, Core, Memory};
use psci_fw_spec::{Opening, Status};
use std::alloc::Global;

/// What the state keeps of one core beside the tree of power domains.
#[derive(Clone, Copy)]
pub struct CoreRow {
    /// What AFFINITY_INFO says of the core.
    pub status: Status,
    /// Where the core goes on when it next enters, if it is asked for.
    pub opening: Option<Opening>,
}

impl CoreRow {
    /// The row of a core that is off and goes on nowhere.
    pub const OFF: CoreRow = CoreRow {
        status: Status::Off,
        opening: None,
    };

    /// The row of a core when a life begins: the boot core is on its way to the boot address, every
    /// other core is off.
    pub fn first(board: &Board, core: u16) -> CoreRow
        ensures { result ≡ first_row board.now core }
    {
        if core != 0 {
            return CoreRow::OFF;
        }
        CoreRow {
            status: Status::Pending,
            opening: Some(Opening {
                address: board.boot(),
                context: 0,
            }),
        }
    }
}

/// A row for each core of the board, as at the start of a life.
pub fn first_rows(alloc: Global, board: &Board) -> Result<Vec<CoreRow>, Memory>
    ensures { IfOk result (λ rows. AreFirst board.now rows.items) }
{
    let mut rows = Vec::with_capacity(alloc, board.cores() as usize)?;
    for core in 0..board.cores() {
        rows.push(CoreRow::first(board, core))?;
    }
    Ok(rows)
}

/// Puts each core's row to what it is at the start of a life.
pub fn reset_rows(rows: &mut [CoreRow], board: &Board)
    requires { length rows.old ≡ cores board.now }
    ensures { AreFirst board.now rows.new }
{
    rows.fill(CoreRow::OFF);
    set_row(rows, Core { number: 0 }, CoreRow::first(board, 0));
}

/// The row of a core; of one that is not there, that it is off.
pub fn row_of(rows: &[CoreRow], core: Core) -> CoreRow
    ensures { result ≡ row_at rows.now core.number }
{
    match rows.get(core.number as usize) {
        Some(row) => *row,
        None => CoreRow::OFF,
    }
}

/// Keeps this row of a core, if it is there.
pub fn set_row(rows: &mut [CoreRow], core: Core, row: CoreRow)
    ensures { rows.new ≡ slice_set rows.old core.number row }
{
    let number = core.number as usize;
    if number < rows.len() {
        rows[number] = row;
    }
}
