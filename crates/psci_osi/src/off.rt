//! The parts of a core that goes off.

ghost use Rattle.std.specs.Prelude.{◌≡◌, ℕ, ◌<◌, ◌≤◌, ◌+◌};
ghost use Rattle.psci_board.specs.Board.{HasNode, IsBoard, cores, height};
ghost use Rattle.psci_messages.specs.Claim.{off_claims, off_wish, own_claims};
ghost use Rattle.psci_messages.specs.View.{is_all_away};
ghost use Rattle.psci_messages.specs.Looked.{view_of};

use psci_board::{Board, Core, Node, law_paths, law_spans};
use psci_coord::own_parts;
use psci_messages::Parts;
use psci_state::Ask;
use psci_tree::Tree;

/// The parts that a core sends when it goes off in OS-initiated mode, once the tree has it off:
/// power-down of the core, and of each higher domain where every core below is off or going off.
pub fn off_parts(tree: &Tree, board: &Board, core: Core) -> Parts
    requires board { tree.now.levels ≡ board.now.levels }
    requires core { core.number < cores board.now }
    ensures { result ≡ off_claims board.now (view_of tree.now) core.number }
{
    own_parts(tree, board, core, off_ask(tree, board, core))
}

/// The ask whose parts these are.
pub fn off_ask(tree: &Tree, board: &Board, core: Core) -> Ask
    requires board { tree.now.levels ≡ board.now.levels }
    requires core { core.number < cores board.now }
    ensures { own_claims board.now (view_of tree.now) core.number result
        ≡ off_claims board.now (view_of tree.now) core.number }
{
    Ask::deepest(highest_off(tree, board, core))
}

/// The highest level up to which the core's domains have no core below that is not off, or 0.
fn highest_off(tree: &Tree, board: &Board, core: Core) -> u32
    requires board { tree.now.levels ≡ board.now.levels }
    requires core { core.number < cores board.now }
    ensures off { (level : ℕ) → level ≤ result
        → off_wish board.now (view_of tree.now) core.number level ≡ 3 }
    ensures last { result < height board.now
        → off_wish board.now (view_of tree.now) core.number (result + 1) ≡ 0 }
    ensures inside { (result ≤ height board.now) × (height board.now ≤ 3) }
{
    law_paths();
    let mut highest = 0;
    for level in 1..board.height() + 1 {
        if !is_off(tree, board, tree.on_path(core, level)) {
            break;
        }
        highest = level;
    }
    highest
}

/// Whether every core below a domain is off or going off.
fn is_off(tree: &Tree, board: &Board, node: Node) -> bool
    requires board { tree.now.levels ≡ board.now.levels }
    requires valid { IsBoard board.now }
    requires node { HasNode board.now node }
    ensures { result ≡ is_all_away board.now (view_of tree.now) node }
{
    law_spans();
    match board.cores_below(node) {
        Some(span) => tree.off(node) == u32::from(span.count),
        None => false,
    }
}
