//! What is granted and confirmed: a row of depths for each level of a board.

ghost use Rattle.std.specs.Prelude.{◌<◌, ◌≡◌, ◌≤◌, [], IfOk, length, map, slice_index_or};
ghost use Rattle.std.specs.Prelude.{slice_set};
ghost use Rattle.psci_board.specs.Board.{height};
ghost use Rattle.psci_tree.specs.declared.depths.Depths.{Depths};
ghost use Rattle.psci_tree.specs.Changes.{path_cleared, rows_with_depth};
ghost use Rattle.psci_tree.specs.DepthRows.{confirmed_of, filled, granted_of};
ghost use Rattle.psci_tree.specs.Recount.{level_sizes};
ghost use Rattle.psci_tree.specs.Way.{AreRows, LeadsTo};

use crate::depths::Depths;
use crate::way::Way;
use psci_board::{Board, Core, MOST_ON_PATH, Memory, Node};
use std::alloc::Global;

/// Power-down for each domain of a board, level by level, which is confirmed.
pub fn deepest_rows(alloc: Global, board: &Board) -> Result<Vec<Vec<Depths>>, Memory>
    ensures granted { IfOk result (λ rows. granted_of (map (λ v. v.items) rows.items)
        ≡ rows_with_depth (level_sizes board.now.levels) 3) }
    ensures confirmed { IfOk result (λ rows. confirmed_of (map (λ v. v.items) rows.items)
        ≡ rows_with_depth (level_sizes board.now.levels) 3) }
{
    let mut rows = Vec::new(alloc);
    for level in 0..board.height() + 1 {
        rows.push(vec![in alloc; Depths::DEEPEST; board.nodes(level) as usize]?)?;
    }
    Ok(rows)
}

/// Writes these depths to each domain.
pub fn fill_rows(rows: &mut [Vec<Depths>], depths: Depths)
    ensures { map (λ v. v.items) rows.new
        ≡ filled (map length (map (λ v. v.items) rows.old)) depths }
{
    for level in 0..rows.len() {
        let row = &mut rows[level];
        row.fill(depths);
    }
}

/// The depths of the domain of a node.
pub fn depths_at(rows: &[Vec<Depths>], node: Node) -> Depths
    requires level { node.level < length rows.now }
    requires place { node.place
        < length (slice_index_or (map (λ v. v.items) rows.now) node.level []) }
    ensures { (d : Depths) → result ≡ slice_index_or
        (slice_index_or (map (λ v. v.items) rows.now) node.level []) node.place d }
{
    let row = &rows[node.level as usize];
    row[node.place as usize]
}

/// Writes the depths of the domain of a node.
pub fn write(rows: &mut [Vec<Depths>], node: Node, depths: Depths)
    requires level { node.level < length rows.old }
    requires place { node.place
        < length (slice_index_or (map (λ v. v.items) rows.old) node.level []) }
    ensures { map (λ v. v.items) rows.new ≡ slice_set (map (λ v. v.items) rows.old) node.level
        (slice_set (slice_index_or (map (λ v. v.items) rows.old) node.level []) node.place
        depths) }
{
    let row = &mut rows[node.level as usize];
    row[node.place as usize] = depths;
}

/// Nothing is granted or confirmed any more to the domains on the path of a core to which this way
/// leads.
pub fn clear_up(rows: &mut [Vec<Depths>], board: &Board, core: Core, way: &Way)
    requires lead { LeadsTo board.now.levels core.number way.now }
    requires rows { AreRows board.now.levels (granted_of (map (λ v. v.items) rows.old))
        (confirmed_of (map (λ v. v.items) rows.old)) }
    ensures granted { granted_of (map (λ v. v.items) rows.new) ≡ path_cleared board.now.levels
        core.number (granted_of (map (λ v. v.items) rows.old)) }
    ensures confirmed { confirmed_of (map (λ v. v.items) rows.new) ≡ path_cleared board.now.levels
        core.number (confirmed_of (map (λ v. v.items) rows.old)) }
{
    // so many turns at most, which a compiler lays out one after the other
    for level in 0..MOST_ON_PATH as u32 {
        if level > board.height() {
            break;
        }
        let place = way.places[level as usize];
        write(rows, Node { level, place }, Depths::NONE);
    }
}
