//! The power domains of a board, level by level.

ghost use Rattle.std.specs.Prelude.{◌+◌, ◌<◌, ◌^◌, ◌≡◌, ◌≤◌, [], IfOk, length, slice_index_or};
ghost use Rattle.std.specs.Prelude.{slice_set, ℕ};
ghost use Rattle.psci_board.specs.Board.{HasNode, cores, height, up};
ghost use Rattle.psci_ctl.specs.Rows.{domain_at, off_domain, path_on_below, HasRows};

use crate::level::{DomainRow, Level};
use psci_board::{Board, Core, Memory, Node, law_paths};
use std::alloc::Global;

/// The domains of a board, all of them powered down.
pub fn off_domains(alloc: Global, board: &Board) -> Result<Vec<Level>, Memory>
    ensures { IfOk result (λ levels. HasRows board.now levels.items) }
{
    let mut levels = Vec::new(alloc);
    for level in 0..board.height() + 1 {
        levels.push(Level::new(alloc, board.nodes(level))?)?;
    }
    Ok(levels)
}

/// What is kept of a domain; of one that the board does not have, that it is powered down.
pub fn domain(levels: &[Level], node: Node) -> DomainRow
    ensures { result ≡ domain_at levels.now node.level node.place }
{
    match levels.get(node.level as usize) {
        Some(level) => level.row(node.place),
        None => DomainRow::OFF,
    }
}

/// Keeps this of a domain.
pub fn set_domain(levels: &mut [Level], node: Node, row: DomainRow)
    requires level { node.level < length levels.old }
    requires place { node.place < length (slice_index_or levels.old node.level []) }
    ensures { levels.new ≡ slice_set levels.old node.level
        (slice_set (slice_index_or levels.old node.level []) node.place row) }
{
    let level = &mut levels[node.level as usize];
    level.set_row(node.place, row);
}

/// Powers all domains down, and forgets all starts.
pub fn turn_off(levels: &mut [Level], board: &Board)
    requires { HasRows board.now levels.old }
    ensures rows { (level place : ℕ) → domain_at levels.new level place ≡ off_domain }
    ensures shape { HasRows board.now levels.new }
{
    for level in levels.iter_mut() {
        level.turn_off();
    }
}

/// The domains on the path of a core run, after one more start below them.
pub fn run_path(levels: &mut [Level], board: &Board, core: Core)
    requires core { core.number < cores board.now }
    requires shape { HasRows board.now levels.old }
    requires room { (level : ℕ) → level ≤ height board.now
        → (domain_at levels.old level (up board.now level core.number)).starts + 1 < 2 ^ 64 }
    ensures rows { (level place : ℕ) → domain_at levels.new level place
        ≡ path_on_below board.now core.number levels.old (height board.now + 1) level place }
    ensures shape { HasRows board.now levels.new }
{
    law_paths();
    let path = board.path(core);
    for level in 0..board.height() + 1 {
        let node = path[level as usize];
        let row = domain(levels, node);
        let run = DomainRow {
            depth: 0,
            starts: row.starts + 1,
        };
        set_domain(levels, node, run);
    }
}
