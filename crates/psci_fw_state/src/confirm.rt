//! What an acknowledgement confirms.

ghost use Rattle.std.specs.Prelude.{◌&&◌, ◌<◌, ◌==◌, ◌≡◌, ◌≤◌, if◌then◌else◌, nat_lt, None};
ghost use Rattle.std.specs.Prelude.{slice_get, Some, true, ℕ};
ghost use Rattle.psci_board.specs.Board.{HasNodeIn, cores};
ghost use Rattle.psci_tree.specs.Recount.{granted_at, is_confirmed_at, IsDomainTree};
ghost use Rattle.psci_tree.specs.Recount.{known as known_of};
ghost use Rattle.psci_fw_spec.specs.Changes.{applied_part, is_made_at};
ghost use Rattle.psci_fw_state.specs.Confirming.{is_last_claim};
ghost use Rattle.psci_fw_state.specs.Trees.{IsTreeOf, KeepsGranted};

use psci_board::{Board, Core, Node, law_paths};
use psci_messages::{Ack, Kind, Message, Part};
use psci_tree::{Tree, law_confirmed};

/// The parts of a message that an acknowledgement of it says were applied.
pub fn applied_of<'a>(ack: &Ack, message: &'a Message) -> &'a [Part]
    ensures { (level : ℕ) → slice_get result.now level
        ≡ applied_part ack.now level (Some message.now) }
{
    let parts = message.parts.as_slice();
    if ack.kind != Kind::Down {
        return &parts[..0];
    }
    &parts[..(ack.applied as usize).min(parts.len())]
}

/// Confirms what these parts claim on the path of a core, each at the level of its place, where no
/// other claim came after it.
pub fn confirm_parts(tree: &mut Tree, board: &Board, core: Core, parts: &[Part])
    requires tree { IsTreeOf board.now tree.old }
    requires outside { cores board.now ≤ core.number
        → (level : ℕ) → slice_get parts.now level ≡ None }
    ensures confirmed { (level place : ℕ) → is_confirmed_at tree.new level place
        ≡ (if is_last_claim board.now tree.old core.number parts.now level place
        then true else is_confirmed_at tree.old level place) }
    ensures kept { KeepsGranted tree.old tree.new }
{
    law_paths();
    if core.number >= board.cores() {
        return;
    }
    let most = parts.len().min(board.height() as usize + 1);
    for level in 0..most {
        let node = tree.on_path(core, level as u32);
        let known = tree.standing(core, level as u32).known;
        confirm_last(tree, node, known, parts[level]);
    }
}

/// Confirms what was granted to a domain, of which the cores below were started so often, if this
/// part is of the last claim on it.
fn confirm_last(tree: &mut Tree, node: Node, known: u64, part: Part)
    requires domain { HasNodeIn tree.old.levels node }
    requires known { known ≡ known_of tree.old node }
    requires tree { IsDomainTree tree.old }
    ensures confirmed { (level place : ℕ) → is_confirmed_at tree.new level place
        ≡ (if (node.level == level && node.place == place)
        && (nat_lt 0 (granted_at tree.old node.level node.place)
        && is_made_at known (Some part))
        then true else is_confirmed_at tree.old level place) }
    ensures kept { KeepsGranted tree.old tree.new }
{
    law_confirmed();
    if tree.granted(node) > 0 && part.generation == known {
        tree.confirm(node);
    }
}
