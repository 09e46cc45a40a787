//! The tree of power domains.

use crate::beside::{Rows, rows_of};
use crate::core_change::least_of;
use crate::depths::Depths;
use crate::domains::{kept_at, kept_of};
use crate::grants::depths_at;
use crate::kept::Kept;
use crate::standing::Standing;
use crate::way::Way;
use psci_board::{Board, Core, MOST_ON_PATH, Memory, Node, law_sizes, law_spans};
use psci_state::{Activity, CoreState, NEVER_STARTED};
use std::alloc::Global;
use std::marker::Model;

/// The core that a life begins with.
pub const BOOT_CORE: Core = Core { number: 0 };

/// What each core asks of its power domains, how often it was started, and what was granted. It is
/// made in memory of its own, so that a tree is moved as a pointer.
#[derive(Drop)]
pub struct Tree {
    /// The board whose power domains they are.
    pub(crate) board: Board,
    /// What is kept of each core, in the order of their numbers.
    pub(crate) cores: Vec<CoreState>,
    /// The way to each core, in the order of their numbers.
    pub(crate) ways: Vec<Way>,
    /// From level 0 up, the depths of each domain.
    pub(crate) depths: Vec<Vec<Depths>>,
    /// From level 1 up, what each domain keeps of the cores below it.
    pub(crate) kept: Vec<Vec<Kept>>,
}

impl Model for Tree {
    ghost use Rattle.std.specs.Prelude.{map};
    ghost use Rattle.psci_tree.specs.Recount.{TreeValue};
    ghost use Rattle.psci_tree.specs.DepthRows.{confirmed_of, granted_of};
    ghost use Rattle.psci_tree.specs.Inside.{IsHeld};

    ghost Value = { TreeValue };

    ghost view = { λ t. record {
      levels = t.board.levels;
      cores = t.cores.items;
      granted = granted_of (map (λ v. v.items) t.depths.items);
      confirmed = confirmed_of (map (λ v. v.items) t.depths.items);
    } };

    ghost invariant = { λ t. IsHeld (map (λ v. v.items) t.kept.items) t.ways.items (record {
      levels = t.board.levels;
      cores = t.cores.items;
      granted = granted_of (map (λ v. v.items) t.depths.items);
      confirmed = confirmed_of (map (λ v. v.items) t.depths.items);
    }) };
}

ghost use Rattle.std.specs.Prelude.{◌≡◌, ℕ, ◌<◌, ◌≤◌, map, length, IfOk, slice_index};
ghost use Rattle.psci_board.specs.Board.{BoardValue, IsBoard, size_below, HasNodeIn, below_in};
ghost use Rattle.psci_board.specs.declared.draft.Node.{Node};
ghost use Rattle.psci_tree.specs.Recount.{active, confirmed_at, granted_at, is_confirmed_at};
ghost use Rattle.psci_tree.specs.Recount.{IsDomainTree, known, known_at, low, off, state_at};
ghost use Rattle.psci_tree.specs.Beside.{AreFull};
ghost use Rattle.psci_tree.specs.Changes.{all_off, start_of_life};
ghost use Rattle.psci_tree.specs.Kept.{Keeps};
ghost use Rattle.psci_tree.specs.Standing.{on_path};

impl Tree {
    /// The tree of a board at the start of a life: the boot core, core 0, is pending, every other
    /// core is off, and every domain off the boot core's path is granted depth 3, which is
    /// confirmed.
    pub fn new(alloc: Global, board: &Board) -> Result<Box<Tree>, Memory>
        ensures value { IfOk result (λ tree. tree.value ≡ start_of_life board.now.levels) }
        ensures levels { IfOk result (λ tree. tree.value.levels ≡ board.now.levels) }
        ensures tree { IfOk result (λ tree. IsDomainTree tree.value) }
    {
        let rows = rows_of(alloc, board)?;
        let mut tree = Tree::all_off(alloc, board, rows)?;
        law_sizes();
        tree.set_pending(BOOT_CORE);
        Ok(tree)
    }

    /// The tree of a board, made of these rows: every core is off, and every domain is granted
    /// depth 3, which is confirmed. It has a frame of its own.
    #[inline(never)]
    fn all_off(alloc: Global, board: &Board, rows: Box<Rows>) -> Result<Box<Tree>, Memory>
        requires { AreFull board.now rows.value }
        ensures value { IfOk result (λ tree. tree.value ≡ all_off board.now.levels) }
        ensures board { IfOk result (λ _. IsBoard board.now) }
    {
        let rows = Box::into_inner(rows);
        let tree = Tree {
            cores: rows.cores,
            ways: rows.ways,
            depths: rows.depths,
            board: board.copy(alloc)?,
            kept: rows.kept,
        };
        Box::new(alloc, tree).map_err(|_| Memory)
    }

    /// The least ask at a level of the cores below a domain: 0 above the board's height, where no
    /// core asks anything.
    pub fn low(&self, node: Node, level: u32) -> u8
        requires { HasNodeIn self.now.levels node }
        ensures { result ≡ low self.now node level }
    {
        law_spans();
        if level > self.board.height() {
            return 0;
        }
        if level == node.level {
            return self.kept(node).low();
        }
        least_of(self.states(node), level)
    }

    /// The sum of the known starts of the cores below a domain.
    pub fn known(&self, node: Node) -> u64
        requires { HasNodeIn self.now.levels node }
        ensures { result ≡ known self.now node }
    {
        self.kept(node).known
    }

    /// How many cores below a domain are running or pending.
    pub fn active(&self, node: Node) -> u32
        requires { HasNodeIn self.now.levels node }
        ensures { result ≡ active self.now node }
    {
        u32::from(self.kept(node).active)
    }

    /// How many cores below a domain are off or going off.
    pub fn off(&self, node: Node) -> u32
        requires { HasNodeIn self.now.levels node }
        ensures { result ≡ off self.now node }
    {
        u32::from(self.kept(node).off)
    }

    /// How the domain of this level on the path of a core stands.
    pub fn standing(&self, core: Core, level: u32) -> Standing
        requires core { core.number < size_below self.now.levels }
        requires level { level ≤ length self.now.levels }
        ensures low { result.low
            ≡ low self.now (on_path self.now.levels core.number level) level }
        ensures known { result.known
            ≡ known self.now (on_path self.now.levels core.number level) }
    {
        let _height = self.board.height();
        let node = self.on_path(core, level);
        if level == 0 {
            let own = self.kept(node);
            return Standing {
                low: own.low(),
                known: own.known,
            };
        }
        let kept = self.kept_above(node);
        Standing {
            low: kept.low(),
            known: kept.known,
        }
    }

    /// The domain of this level on the path of a core.
    #[tactic(auto, using(crate::proofs::Seen::place_on_way))]
    pub fn on_path(&self, core: Core, level: u32) -> Node
        requires core { core.number < size_below self.now.levels }
        requires level { level ≤ length self.now.levels }
        ensures { result ≡ on_path self.now.levels core.number level }
    {
        let way = &self.ways[core.number as usize];
        Node {
            level,
            place: way.places[level as usize],
        }
    }

    /// The place of each domain on the path of a core in its level, by the level.
    #[tactic(auto, using(crate::proofs::Seen::place_on_way))]
    pub fn places(&self, core: Core) -> [u16; MOST_ON_PATH]
        requires { core.number < size_below self.now.levels }
        ensures { (level : ℕ) → level ≤ length self.now.levels → slice_index result level
            ≡ (on_path self.now.levels core.number level).place }
    {
        self.ways[core.number as usize].places
    }

    /// The granted depth of a domain.
    #[tactic(auto, using(crate::proofs::Seen::place_seen))]
    pub fn granted(&self, node: Node) -> u8
        requires { HasNodeIn self.now.levels node }
        ensures value { result ≡ granted_at self.now node.level node.place }
        ensures tree { IsDomainTree self.now }
    {
        depths_at(&self.depths, node).granted
    }

    /// Whether what was granted to a domain is confirmed.
    pub fn confirmed(&self, node: Node) -> bool
        requires { HasNodeIn self.now.levels node }
        ensures { result ≡ is_confirmed_at self.now node.level node.place }
    {
        self.confirmed_depth(node) > 0
    }

    /// What a core does. A core that the board does not have is off.
    pub fn activity(&self, core: Core) -> Activity
        ensures { result ≡ (state_at self.now core.number).activity }
    {
        self.core(core).activity
    }

    /// The known start of a core, 0 of one that the board does not have.
    pub fn known_start(&self, core: Core) -> u32
        ensures { result ≡ known_at self.now core.number }
    {
        self.core(core).known
    }

    /// What a core of the board does: no number of cores is looked at first.
    pub fn activity_inside(&self, core: Core) -> Activity
        requires { core.number < size_below self.now.levels }
        ensures { result ≡ (state_at self.now core.number).activity }
    {
        self.cores[core.number as usize].activity
    }

    /// The known start of a core of the board, by the same look.
    pub fn known_start_inside(&self, core: Core) -> u32
        requires { core.number < size_below self.now.levels }
        ensures { result ≡ known_at self.now core.number }
    {
        self.cores[core.number as usize].known
    }

    /// The depth of a domain that is confirmed, or 0.
    #[tactic(auto, using(crate::proofs::Seen::place_seen))]
    pub(crate) fn confirmed_depth(&self, node: Node) -> u8
        requires { HasNodeIn self.now.levels node }
        ensures { result ≡ confirmed_at self.now node.level node.place }
    {
        depths_at(&self.depths, node).confirmed
    }

    /// What is kept of a core.
    fn core(&self, core: Core) -> CoreState
        ensures { result ≡ state_at self.now core.number }
    {
        self.cores
            .get(core.number as usize)
            .copied()
            .unwrap_or(NEVER_STARTED)
    }

    /// The states of the cores below a node.
    fn states(&self, node: Node) -> &[CoreState]
        requires { HasNodeIn self.now.levels node }
        ensures { result.now ≡ map (λ c. state_at self.now c) (below_in self.now.levels node) }
    {
        law_spans();
        match self.board.cores_below(node) {
            Some(span) => {
                let first = span.first as usize;
                &self.cores[first..first + span.count as usize]
            }
            None => &[],
        }
    }

    /// What a domain above the cores keeps of those below it.
    fn kept_above(&self, node: Node) -> &Kept
        requires domain { HasNodeIn self.now.levels node }
        requires above { 0 < node.level }
        ensures { Keeps node.level result.now
            (map (λ c. state_at self.now c) (below_in self.now.levels node)) }
    {
        law_spans();
        kept_at(&self.kept, node)
    }

    /// What is kept of the cores below a node.
    fn kept(&self, node: Node) -> Kept
        requires { HasNodeIn self.now.levels node }
        ensures { Keeps node.level result
            (map (λ c. state_at self.now c) (below_in self.now.levels node)) }
    {
        law_spans();
        kept_of(&self.cores, &self.kept, node)
    }
}
