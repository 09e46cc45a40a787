//! A boot core that is not the first one of the tree, and the swap that gives it number 0.

ghost use Rattle.std.specs.Prelude.{◌+◌, ◌<◌, ◌≡◌, ◌≤◌, length, None, slice_index_or, Some, true};
ghost use Rattle.std.specs.Prelude.{ℕ};
ghost use Rattle.std.specs.List.{list_all, range_with_len};
ghost use Rattle.psci_board.specs.Board.{HasNode, cores, domain_of, height, parent};
ghost use Rattle.psci_fw_laws.specs.Renumbered.{swap};
ghost use Rattle.psci_platform.specs.Swaps.{goes_along, is_on_path, is_swapped, is_symmetric};
ghost use Rattle.psci_platform.specs.Swaps.{moved, number_of, other_number, swap_for};

use psci_board::{Board, Core, MOST_LEVELS, MOST_ON_PATH, Node, law_parents, law_paths, law_sizes};

/// A node, and each domain above it.
#[derive(Clone, Copy)]
struct WayUp {
    /// The node, its parent and so on, up to the system; behind them the node again.
    nodes: [Node; MOST_ON_PATH],
    /// Where the system stands among them: how many domains are above the node.
    top: usize,
}

/// The node at the other place: from the system down, each domain's child of the other number.
#[tactic(auto, unfolding(crate::specs::Swaps::moved))]
pub fn moved(board: &Board, boot: Core, node: Node) -> Node
    requires { boot.number < cores board.now }
    ensures { result ≡ moved board.now boot.number node }
{
    let way = way_up(board, node);
    let mut other = way.nodes[way.top];
    for step in 0..way.top {
        let place = way.top - 1 - step;
        let number = other_number(board, boot, way.nodes[place + 1], way.nodes[place]);
        other = board.child(other, number).unwrap_or(way.nodes[place]);
    }
    other
}

/// The way from a node up to the system.
fn way_up(board: &Board, node: Node) -> WayUp
    ensures first { slice_index_or result.nodes 0 node ≡ node }
    ensures long { length result.nodes ≡ 4 }
    ensures most { result.top ≤ 3 }
    ensures parents { (place : ℕ) → place < result.top
        → parent board.now (slice_index_or result.nodes place node)
        ≡ Some (slice_index_or result.nodes (place + 1) node) }
    ensures last { result.top < 3
        → parent board.now (slice_index_or result.nodes result.top node) ≡ None }
{
    let mut nodes = [node; MOST_ON_PATH];
    for top in 0..MOST_LEVELS {
        match board.parent(nodes[top]) {
            None => return WayUp { nodes, top },
            Some(above) => nodes[top + 1] = above,
        }
    }
    WayUp {
        nodes,
        top: MOST_LEVELS,
    }
}

/// The core of the other number. It takes no step where core 0 boots.
pub fn other_core(board: &Board, boot: Core, core: Core) -> Core
    requires { boot.number < cores board.now }
    ensures number { result.number ≡ swap_for board.now boot.number 0 core.number }
    ensures inside { is_symmetric board.now boot.number ≡ true → core.number < cores board.now
        → result.number < cores board.now }
{
    law_sizes();
    law_paths();
    law_parents();
    let _height = board.height();
    if boot.number == 0 {
        return core;
    }
    Core {
        number: moved(board, boot, core.node()).place,
    }
}

/// The other number of a node among its siblings.
fn other_number(board: &Board, boot: Core, above: Node, node: Node) -> u32
    requires boot { boot.number < cores board.now }
    requires parent { parent board.now node ≡ Some above }
    ensures { result ≡ other_number board.now boot.number above node }
{
    let number = number_of(board, node);
    if is_on_path(board, boot, above) {
        swapped(number_of(board, domain_of(board, boot, node.level)), number)
    } else {
        number
    }
}

/// The number, of 0 and another one, that is not this one; every other number is its own.
fn swapped(other: u32, number: u32) -> u32
    ensures { result ≡ swap 0 other number }
{
    if number == 0 {
        other
    } else if number == other {
        0
    } else {
        number
    }
}

/// The number of a node among its siblings, and 0 of the system.
fn number_of(board: &Board, node: Node) -> u32
    ensures { result ≡ number_of board.now node }
{
    board.child_number(node).unwrap_or(0)
}

/// Whether a domain stands above core 0 or above the boot core.
fn is_on_path(board: &Board, boot: Core, node: Node) -> bool
    requires boot { boot.number < cores board.now }
    requires level { node.level ≤ height board.now }
    ensures { result ≡ is_on_path board.now boot.number node }
{
    node.place == 0 || node.place == domain_of(board, boot, node.level).place
}

/// The domain of a level above a core.
fn domain_of(board: &Board, core: Core, level: u32) -> Node
    requires core { core.number < cores board.now }
    requires level { level ≤ height board.now }
    ensures { result ≡ domain_of board.now core.number level }
{
    law_paths();
    let _height = board.height();
    board.path(core)[level as usize]
}

/// Whether the swap gives the boot core number 0, and swaps all cores and domains of the board.
#[tactic(auto, unfolding(crate::specs::Swaps::is_symmetric))]
pub fn is_symmetric(board: &Board, boot: Core) -> bool
    requires { boot.number < cores board.now }
    ensures { result ≡ is_symmetric board.now boot.number }
{
    other_core(board, boot, boot).number == 0 && are_swapped(board, boot)
}

/// Whether each core is swapped with one of the board, and the domains above them are.
fn are_swapped(board: &Board, boot: Core) -> bool
    requires { boot.number < cores board.now }
    ensures { result
        ≡ list_all (is_swapped board.now boot.number) (range_with_len 0 (cores board.now)) }
{
    for number in 0..board.cores() {
        if !is_swapped(board, boot, Core { number }) {
            return false;
        }
    }
    true
}

/// Whether a core is swapped with one of the board, and the domains above them are.
fn is_swapped(board: &Board, boot: Core, core: Core) -> bool
    requires boot { boot.number < cores board.now }
    requires core { core.number < cores board.now }
    ensures { result ≡ is_swapped board.now boot.number core.number }
{
    let other = other_core(board, boot, core);
    other.number < board.cores()
        && other_core(board, boot, other) == core
        && goes_along(board, boot, core, 1)
        && goes_along(board, boot, core, 2)
        && goes_along(board, boot, core, 3)
}

/// Whether the domain of this level above a core is swapped with the one above the other core.
fn goes_along(board: &Board, boot: Core, core: Core, level: u32) -> bool
    requires boot { boot.number < cores board.now }
    requires core { core.number < cores board.now }
    requires other { swap_for board.now boot.number 0 core.number < cores board.now }
    ensures { result ≡ goes_along board.now boot.number core.number level }
{
    if level > board.height() {
        return true;
    }
    let other = other_core(board, boot, core);
    let above = moved(board, boot, domain_of(board, core, level));
    domain_of(board, other, level).place == above.place
}
