//! What the power domains above the cores keep: a row for each level.

ghost use Rattle.std.specs.Prelude.{◌<◌, ◌∷◌, ◌≡◌, ◌≤◌, [], drop, IfOk, length, map, replicate};
ghost use Rattle.std.specs.Prelude.{slice_index_or};
ghost use Rattle.psci_board.specs.Board.{HasNode, IsBoard, height, size_below, span};
ghost use Rattle.psci_state.specs.declared.cores.CoreState.{CoreState};
ghost use Rattle.psci_tree.specs.Recount.{never_started};
ghost use Rattle.psci_tree.specs.Kept.{AreKept, gone, IsOffRow, Keeps, kept_at, kept_exchanged};
ghost use Rattle.psci_tree.specs.Kept.{level_kept, MayExchange, with_kept};

use crate::kept::Kept;
use psci_board::{Board, Memory, Node, law_spans};
use psci_state::CoreState;
use std::alloc::Global;

/// What the domains of a board keep while every core is off and was never started.
pub fn rows_kept(alloc: Global, board: &Board) -> Result<Vec<Vec<Kept>>, Memory>
    ensures { IfOk result (λ rows. AreKept board.now.levels
        (replicate (size_below board.now.levels) never_started)
        (map (λ v. v.items) rows.items)) }
{
    law_spans();
    let mut rows = Vec::with_capacity(alloc, board.height() as usize)?;
    for level in 1..board.height() + 1 {
        rows.push(row_kept(alloc, board, level)?)?;
    }
    Ok(rows)
}

/// The same of the domains of one level.
fn row_kept(alloc: Global, board: &Board, level: u32) -> Result<Vec<Kept>, Memory>
    requires board { IsBoard board.now }
    requires level { level ≤ height board.now }
    ensures { IfOk result (λ row. IsOffRow board.now.levels level row.items) }
{
    let mut row = Vec::with_capacity(alloc, board.nodes(level) as usize)?;
    for place in 0..board.nodes(level) {
        row.push(Kept::never_started(count_below(board, Node { level, place })))?;
    }
    Ok(row)
}

/// How many cores are below a node.
fn count_below(board: &Board, node: Node) -> u16
    requires { HasNode board.now node }
    ensures { result ≡ (span board.now.levels node).count }
{
    match board.cores_below(node) {
        Some(span) => span.count,
        None => 0,
    }
}

/// Turns off every core below each domain, and forgets its starts.
pub fn turn_off(rows: &mut [Vec<Kept>])
    ensures { map (λ v. v.items) rows.new ≡ map (map gone) (map (λ v. v.items) rows.old) }
{
    for level in 0..rows.len() {
        let row = &mut rows[level];
        turn_off_row(row);
    }
}

/// The same of the domains of one level.
fn turn_off_row(row: &mut [Kept])
    ensures { row.new ≡ map gone row.old }
{
    for place in 0..row.len() {
        row[place] = Kept::never_started(row[place].cores);
    }
}

/// What is kept of the cores below a node. A core is counted where its state stands.
pub fn kept_of(cores: &[CoreState], rows: &[Vec<Kept>], node: Node) -> Kept
    requires core { node.level ≡ 0 → node.place < length cores.now }
    requires level { node.level ≤ length rows.now }
    requires place { 0 < node.level
        → node.place < length (level_kept (map (λ v. v.items) rows.now) node.level) }
    ensures core { (c : CoreState) → node.level ≡ 0
        → Keeps 0 result (slice_index_or cores.now node.place c ∷ []) }
    ensures domain { 0 < node.level
        → result ≡ kept_at (map (λ v. v.items) rows.now) node.level node.place }
{
    if node.level == 0 {
        return Kept::of_core(&cores[node.place as usize]);
    }
    *kept_at(rows, node)
}

/// What a domain above the cores keeps, where it stands.
pub fn kept_at(rows: &[Vec<Kept>], node: Node) -> &Kept
    requires above { 0 < node.level }
    requires level { node.level ≤ length rows.now }
    requires place { node.place
        < length (level_kept (map (λ v. v.items) rows.now) node.level) }
    ensures { result.now ≡ kept_at (map (λ v. v.items) rows.now) node.level node.place }
{
    let row = &rows[node.level as usize - 1];
    &row[node.place as usize]
}

/// One of the cores below a domain came from a state into another.
pub fn exchange(rows: &mut [Vec<Kept>], node: Node, was: &CoreState, is: &CoreState)
    requires above { 0 < node.level }
    requires level { node.level ≤ length rows.old }
    requires place { node.place
        < length (level_kept (map (λ v. v.items) rows.old) node.level) }
    requires may { MayExchange node.level
        (kept_at (map (λ v. v.items) rows.old) node.level node.place) was.now is.now }
    ensures { map (λ v. v.items) rows.new ≡ with_kept (map (λ v. v.items) rows.old) node
        (kept_exchanged node.level (kept_at (map (λ v. v.items) rows.old) node.level node.place)
        was.now is.now) }
{
    let row = &mut rows[node.level as usize - 1];
    row[node.place as usize].exchange(node.level, was, is);
}
