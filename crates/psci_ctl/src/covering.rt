//! Whether the domains below a domain are deep enough.

ghost use Rattle.std.specs.Prelude.{◌≡◌};
ghost use Rattle.psci_board.specs.Board.{HasNode};
ghost use Rattle.psci_ctl_spec.specs.Values.{is_covered};
ghost use Rattle.psci_ctl.specs.Rows.{depth_in, HasRows};

use crate::level::Level;
use psci_board::{Board, Node, law_children};

/// Whether every child of a domain is at least as deep as this. It reads the depth of each child,
/// where they stand side by side.
pub fn is_covered(levels: &[Level], board: &Board, node: Node, depth: u8) -> bool
    requires node { HasNode board.now node }
    requires shape { HasRows board.now levels.now }
    ensures { result ≡ is_covered board.now (depth_in levels.now) node depth }
{
    law_children();
    let height = board.height();
    prove!(node.level <= height);
    let Some(first) = board.child(node, 0) else {
        return true;
    };
    levels[first.level as usize].are_deep(first.place, board.children(node), depth)
}
