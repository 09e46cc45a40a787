//! What a tree keeps of its cores and domains.

ghost use Rattle.std.specs.Prelude.{IfOk};
ghost use Rattle.psci_tree.specs.Beside.{AreFull};

use crate::depths::Depths;
use crate::domains::rows_kept;
use crate::grants::deepest_rows;
use crate::kept::Kept;
use crate::way::{Way, ways_of};
use psci_board::{Board, Memory};
use psci_state::{CoreState, NEVER_STARTED};
use std::alloc::Global;

/// What a tree keeps of its cores and domains.
#[derive(Drop)]
pub struct Rows {
    /// What is kept of each core, in the order of their numbers.
    pub cores: Vec<CoreState>,
    /// The way to each core, in the order of their numbers.
    pub ways: Vec<Way>,
    /// From level 0 up, the depths of each domain.
    pub depths: Vec<Vec<Depths>>,
    /// From level 1 up, what each domain keeps of the cores below it.
    pub kept: Vec<Vec<Kept>>,
}

/// The rows of a board where every core is off, in memory of their own. It has a frame of its own.
#[inline(never)]
pub fn rows_of(alloc: Global, board: &Board) -> Result<Box<Rows>, Memory>
    ensures { IfOk result (λ rows. AreFull board.now rows.value) }
{
    let rows = Rows {
        cores: vec![in alloc; NEVER_STARTED; board.cores() as usize]?,
        ways: ways_of(alloc, board)?,
        depths: deepest_rows(alloc, board)?,
        kept: rows_kept(alloc, board)?,
    };
    Box::new(alloc, rows).map_err(|_| Memory)
}
