//! What decides whether a board is one, whoever gives it: a text, or a struct of C.

ghost use Rattle.std.specs.Prelude.{◌*◌, ◌/◌, ◌<◌, ◌^◌, ◌≡◌, ◌≤◌, drop, length};
ghost use Rattle.psci_board.specs.Board.{IsTree, nodes_up, size_below};
ghost use Rattle.psci_board.specs.Draft.{first_fault, is_limit};
ghost use Rattle.psci_board.specs.Level.{index_named};

use crate::fault::BoardFault;
use crate::level::Level;
use arrayvec::ArrayVec;

/// A board before it is one.
#[derive(Clone, Copy)]
pub struct BoardDraft {
    /// The levels of its tree do not fit each other.
    pub is_uneven: bool,
    /// A node has no child or more than 16.
    pub is_too_wide: bool,
    /// How many cores there are; where they are too many, some number above 256.
    pub cores: u64,
    /// There are more than four executable ranges, or one is empty.
    pub has_bad_range: bool,
    /// The boot core may enter at its address.
    pub may_boot: bool,
    /// How often a core may be started in one life.
    pub starts: u64,
    /// How many lives there are.
    pub lives: u64,
}

impl BoardDraft {
    /// The first fault, in the order in which faults are looked for.
    #[tactic(auto, unfolding(crate::specs::Draft::first_fault))]
    pub fn first_fault(&self) -> Option<BoardFault>
        ensures { result ≡ first_fault self.now }
    {
        if self.is_uneven {
            Some(BoardFault::Uneven)
        } else if self.is_too_wide {
            Some(BoardFault::TooWide)
        } else if self.cores > MOST_CORES as u64 {
            Some(BoardFault::TooManyCores)
        } else if self.has_bad_range {
            Some(BoardFault::BadRange)
        } else if !self.may_boot {
            Some(BoardFault::BadBoot)
        } else if !is_limit(u64::from(u32::MAX), self.starts)
            || !is_limit(u64::from(MOST_LIVES), self.lives)
        {
            Some(BoardFault::BadLimit)
        } else {
            None
        }
    }
}

/// Whether a limit of starts or of lives is 1 to `most`.
fn is_limit(most: u64, limit: u64) -> bool
    ensures { result ≡ is_limit most limit }
{
    0 < limit && limit <= most
}

// Affinity words: one field of 8 bits for each level below the system.

/// The place on level `low` that a word names, by its field for this level and those for the levels
/// above: from the highest level down, one step for each. The children of the system have one field
/// and all that stands above it, so that no word with more is named.
pub fn place_of(levels: &[Level], word: u64, low: u32) -> Option<u16>
    requires tree { IsTree levels.now }
    requires high { length levels.now ≤ MOST_LEVELS }
    requires low { low ≤ length levels.now }
    ensures { result ≡ index_named (drop low levels.now) (word / 2 ^ (8 * low)) }
{
    let count = levels.len() as u32;
    if low == count {
        return (word >> (8 * low) == 0).then_some(0);
    }
    let top = count - 1;
    let highest = word >> (8 * top);
    if highest >= u64::from(levels[top as usize].all_children()) {
        return None;
    }
    let fields = word.to_le_bytes();
    let mut place = highest as u16;
    for level in (low..top).rev() {
        let field = u32::from(fields[level as usize]);
        place = levels[level as usize].own_child(place, field)?;
    }
    Some(place)
}

// How large a board may be.

/// How many levels stand above the cores, at most.
pub const MOST_LEVELS: usize = 3;

/// How many domains a path has, at most: a core's own and one on each level above.
pub const MOST_ON_PATH: usize = MOST_LEVELS + 1;

/// How many children a node has, at most.
pub const MOST_CHILDREN: usize = 16;

/// How many cores a board has, at most.
pub const MOST_CORES: usize = 256;

/// How many ranges of executable memory a board has, at most.
pub const MOST_RANGES: usize = 4;

/// How many lives a board has, at most.
pub const MOST_LIVES: u32 = 65_535;

// Cores and power domains by their numbers.

/// A core, by its number.
#[derive(Clone, Copy, Debug, PartialEq, Eq)]
pub struct Core {
    /// How many cores the board text has before it.
    pub number: u16,
}

/// A power domain: how far above the cores it stands, and how many of its level are left of it.
#[derive(Clone, Copy, Debug, PartialEq, Eq, Default)]
pub struct Node {
    /// 0 for a core, the board's height for the whole system.
    pub level: u32,
    /// Counted from 0, from left to right.
    pub place: u16,
}

impl Core {
    /// The core as a power domain of level 0.
    pub fn node(self) -> Node
        ensures { result ≡ record { level = 0; place = self.number } }
    {
        Node {
            level: 0,
            place: self.number,
        }
    }
}

// Paths through the tree of power domains.

/// A place on the level below these, and the nodes above it.
#[tactic(auto, using(crate::proofs::More::rising))]
pub fn path_of(levels: &[Level], place: u16) -> ArrayVec<Node, MOST_ON_PATH>
    requires tree { IsTree levels.now }
    requires high { length levels.now ≤ MOST_LEVELS }
    requires inside { place < size_below levels.now }
    ensures { result.items ≡ nodes_up 0 levels.now place }
{
    let mut path: ArrayVec<Node, MOST_ON_PATH> = ArrayVec::new();
    let mut node = Node { level: 0, place };
    for level in levels {
        path.push(node);
        node = Node {
            level: node.level + 1,
            place: level.parent(node.place),
        };
    }
    path.push(node);
    path
}
