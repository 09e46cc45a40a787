//! The parts that a core sends when it stops.

ghost use Rattle.std.specs.Prelude.{◌≡◌, ◌<◌, []};
ghost use Rattle.psci_board.specs.declared.draft.Node.{Node};
ghost use Rattle.psci_board.specs.Board.{cores};
ghost use Rattle.psci_tree.specs.Recount.{TreeValue, low as low_of};
ghost use Rattle.psci_messages.specs.Claim.{claims_of, platform_claims, own_claims};
ghost use Rattle.psci_coord.specs.Wish.{depth_of, wanted};
ghost use Rattle.psci_messages.specs.Looked.{view_of};

use psci_board::{Board, Core};
use psci_messages::{Part, Parts};
use psci_state::Ask;
use psci_tree::Tree;

/// The depth that a core that stops wants of the domains on its path.
#[derive(Drop)]
pub enum Wish {
    /// The least ask of all cores below the domain.
    Least,
    /// What the core itself asks.
    Own(Ask),
}

impl Wish {
    /// The depth that is wanted of a domain of this level, of which the cores below ask this at
    /// least.
    pub fn depth(&self, level: u32, low: u8) -> u8
        ensures { (t : TreeValue) (n : Node) → level ≡ n.level → low ≡ low_of t n n.level
            → result ≡ depth_of t n self.now }
    {
        match self {
            Wish::Least => low,
            Wish::Own(ask) => ask.depth(level),
        }
    }
}

/// The parts that a core sends when it stops in platform-coordinated mode, once the tree has it
/// suspended or off: a part for each domain on its path, with the least ask of the cores below, as
/// long as this is 1 at least.
pub fn claims(tree: &Tree, board: &Board, core: Core) -> Parts
    requires board { tree.now.levels ≡ board.now.levels }
    requires core { core.number < cores board.now }
    ensures { result ≡ platform_claims board.now (view_of tree.now) core.number }
{
    let mut parts = Parts::new();
    climb(tree, board, core, &Wish::Least, &mut parts);
    parts
}

/// The parts that a core sends when it goes to the state that it asks for: a part for each domain
/// on its path, with its own ask, as long as this is 1 at least.
pub fn own_parts(tree: &Tree, board: &Board, core: Core, ask: Ask) -> Parts
    requires board { tree.now.levels ≡ board.now.levels }
    requires core { core.number < cores board.now }
    ensures { result ≡ own_claims board.now (view_of tree.now) core.number ask }
{
    let mut parts = Parts::new();
    climb(tree, board, core, &Wish::Own(ask), &mut parts);
    parts
}

/// Up the path of a core, a part for each domain, as long as a depth of at least 1 is wanted. They
/// are written where they are to stand, which has none before.
pub fn climb(tree: &Tree, board: &Board, core: Core, wish: &Wish, parts: &mut Parts)
    requires board { tree.now.levels ≡ board.now.levels }
    requires core { core.number < cores board.now }
    requires none { parts.old ≡ [] }
    ensures { parts.new ≡ claims_of board.now (view_of tree.now) core.number
        (wanted board.now (view_of tree.now) core.number wish.now) }
{
    for level in 0..board.height() + 1 {
        let standing = tree.standing(core, level);
        let depth = wish.depth(level, standing.low);
        if depth == 0 {
            break;
        }
        parts.push(Part {
            level,
            depth,
            generation: standing.known,
        });
    }
}
