//! The way from the system down to each core.

ghost use Rattle.std.specs.Prelude.{◌≡◌, ◌<◌, IfOk};
ghost use Rattle.psci_board.specs.Board.{IsTree, size_below};
ghost use Rattle.psci_tree.specs.Way.{AreWays, IsWayOf};

use psci_board::{Board, Core, MOST_ON_PATH, Memory, Node};
use std::alloc::Global;

/// Where a core and the domains above it stand in the tree, level by level.
#[derive(Clone, Copy)]
pub struct Way {
    /// The place of each in its level.
    pub places: [u16; MOST_ON_PATH],
}

/// The way to each core, in the order of their numbers.
pub fn ways_of(alloc: Global, board: &Board) -> Result<Vec<Way>, Memory>
    ensures { IfOk result (λ ways. AreWays board.now.levels ways.items) }
{
    let mut ways = Vec::with_capacity(alloc, board.cores() as usize)?;
    for number in 0..board.cores() {
        ways.push(way_to(board, Core { number }))?;
    }
    Ok(ways)
}

/// The way to a core, one step up for each level.
fn way_to(board: &Board, core: Core) -> Way
    requires tree { IsTree board.now.levels }
    requires core { core.number < size_below board.now.levels }
    ensures { IsWayOf board.now.levels core.number result }
{
    let mut places = [0; MOST_ON_PATH];
    let mut place = core.number;
    for level in 0..board.height() {
        let node = Node { level, place };
        places[level as usize] = place;
        place = board.parent(node).unwrap_or(node).place;
    }
    places[board.height() as usize] = place;
    Way { places }
}
