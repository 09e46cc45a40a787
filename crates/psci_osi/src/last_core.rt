//! The last-core check.

ghost use Rattle.std.specs.Prelude.{◌≡◌, ◌≢◌, ◌<◌, ◌≤◌};
ghost use Rattle.psci_board.specs.Board.{HasNodeIn, IsBoard, cores};
ghost use Rattle.psci_tree.specs.Recount.{active, granted_at};
ghost use Rattle.psci_messages.specs.Claim.{children_of, elsewhere, granted_less, last_core_check};
ghost use Rattle.psci_messages.specs.Claim.{refusal, shallow};
ghost use Rattle.psci_messages.specs.Looked.{view_of};
ghost use Rattle.psci_osi.specs.Worse.{worse};

use psci_board::{Board, Core, Node, law_children, law_sizes};
use psci_coord::own_parts;
use psci_messages::{Osi, Parts};
use psci_state::Ask;
use psci_tree::Tree;

/// Whether a core that asks for this may be suspended in OS-initiated mode: the parts that it then
/// sends, or why it is not the last core of a domain that it asks to go down.
pub fn check(tree: &Tree, board: &Board, core: Core, ask: Ask) -> Result<Parts, Osi>
    requires board { tree.now.levels ≡ board.now.levels }
    requires core { core.number < cores board.now }
    ensures { result ≡ last_core_check board.now (view_of tree.now) core.number ask }
{
    match path_refusal(tree, board, core, ask) {
        Some(fault) => Err(fault),
        None => Ok(own_parts(tree, board, core, ask)),
    }
}

/// Why the request is refused, if it is.
pub fn path_refusal(tree: &Tree, board: &Board, core: Core, ask: Ask) -> Option<Osi>
    requires board { tree.now.levels ≡ board.now.levels }
    requires core { core.number < cores board.now }
    ensures { result ≡ refusal board.now (view_of tree.now)
        (shallow board.now (view_of tree.now) core.number ask) }
{
    let mut fault = None;
    for level in 0..board.height() {
        let own = tree.on_path(core, level);
        let above = tree.on_path(core, level + 1);
        let here = level_refusal(tree, board, above, own.place, ask.depth(level + 1));
        fault = worse(fault, here);
    }
    fault
}

/// Why a request for this depth of a domain is refused by its children that do not have this place.
fn level_refusal(tree: &Tree, board: &Board, above: Node, own: u16, depth: u8) -> Option<Osi>
    requires board { tree.now.levels ≡ board.now.levels }
    requires valid { IsBoard board.now }
    ensures { result ≡ refusal board.now (view_of tree.now) (granted_less (view_of tree.now) depth
        (elsewhere own (children_of board.now above))) }
{
    law_sizes();
    law_children();
    let Some(first) = board.child(above, 0) else {
        return None;
    };
    let mut fault = None;
    for number in 0..board.children(above) {
        let child = Node {
            level: first.level,
            place: first.place + number as u16,
        };
        // Mostly a child refuses nothing, and the reason so far stays in its place.
        if let Some(reason) = child_refusal(tree, child, own, depth) {
            fault = worse(fault, Some(reason));
        }
    }
    fault
}

/// Why a request for this depth of a domain is refused by this child: it is neither on the path nor
/// was it granted as much.
fn child_refusal(tree: &Tree, child: Node, own: u16, depth: u8) -> Option<Osi>
    requires { HasNodeIn tree.now.levels child }
    ensures own { child.place ≡ own → result ≡ None }
    ensures deep { child.place ≢ own → depth ≤ granted_at tree.now child.level child.place
        → result ≡ None }
    ensures idle { child.place ≢ own → granted_at tree.now child.level child.place < depth
        → active tree.now child ≡ 0
        → result ≡ Some Osi.Invalid }
    ensures busy { child.place ≢ own → granted_at tree.now child.level child.place < depth
        → active tree.now child ≢ 0
        → result ≡ Some Osi.Denied }
{
    if child.place == own {
        return None;
    }
    if tree.granted(child) >= depth {
        return None;
    }
    if tree.active(child) == 0 {
        Some(Osi::Invalid)
    } else {
        Some(Osi::Denied)
    }
}

/// The reason that wins: Invalid before Denied.
fn worse(one: Option<Osi>, other: Option<Osi>) -> Option<Osi>
    ensures { result ≡ worse one other }
{
    match one {
        None => other,
        Some(Osi::Invalid) => one,
        Some(Osi::Denied) => Some(other.unwrap_or(Osi::Denied)),
    }
}
