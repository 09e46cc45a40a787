//! The tree of power domains, and what else a board fixes.

use crate::draft::{Core, MOST_ON_PATH, Node, path_of, place_of};
use crate::level::{Level, copies};
use crate::memory::Memory;
use crate::span::{CoreSpan, first_core};
use crate::tree_text::AddressRange;
use arrayvec::ArrayVec;
use psci_abi::Format;
use std::alloc::Global;
use std::marker::Model;

/// A board.
#[derive(Drop)]
pub struct Board {
    levels: Vec<Level>,
    ranges: Vec<AddressRange>,
    boot: u64,
    starts: u32,
    lives: u32,
    format: Format,
}

impl Model for Board {
    ghost use Rattle.psci_board.specs.Board.{BoardValue, IsBoard};

    ghost Value = { BoardValue };

    ghost view = { λ b. record {
      levels = b.levels.items;
      ranges = b.ranges.items;
      boot = b.boot;
      starts = b.starts;
      lives = b.lives;
      format = b.format;
    } };

    ghost invariant = { λ b. IsBoard (record {
      levels = b.levels.items;
      ranges = b.ranges.items;
      boot = b.boot;
      starts = b.starts;
      lives = b.lives;
      format = b.format;
    }) };
}

ghost use Rattle.std.specs.Prelude.{◌≡◌, ◌<◌, ◌≤◌, true, option_map, IfOk, IfSome};
ghost use Rattle.psci_board.specs.Board.{child, child_number, children, core_at, core_of, cores};
ghost use Rattle.psci_board.specs.Board.{cores_below, HasNode, height, is_in_some, IsBoard};
ghost use Rattle.psci_board.specs.Board.{level_at, may_enter, node_of, nodes, parent, path};

impl Board {
    /// The board of these levels, from 1 up, these ranges of executable memory, this entry point of
    /// the boot core, these limits of starts and of lives, and this format of power state words.
    pub fn new(
        levels: Vec<Level>,
        ranges: Vec<AddressRange>,
        boot: u64,
        starts: u32,
        lives: u32,
        format: Format,
    ) -> Board
        requires { IsBoard (record {
          levels = levels.items;
          ranges = ranges.items;
          boot = boot;
          starts = starts;
          lives = lives;
          format = format;
        }) }
        ensures { result ≡ record {
          levels = levels.items;
          ranges = ranges.items;
          boot = boot;
          starts = starts;
          lives = lives;
          format = format;
        } }
    {
        Board {
            levels,
            ranges,
            boot,
            starts,
            lives,
            format,
        }
    }

    /// The level of the system, 1 to 3.
    pub fn height(&self) -> u32
        ensures height { result ≡ height self.now }
        ensures board { IsBoard self.now }
    {
        self.levels.len() as u32
    }

    /// How many cores there are, 1 to 256.
    pub fn cores(&self) -> u16
        ensures cores { result ≡ cores self.now }
        ensures board { IsBoard self.now }
    {
        self.levels[0].all_children()
    }

    /// The core of this number, if there is one.
    pub fn core(&self, number: u16) -> Option<Core>
        ensures { result ≡ core_at self.now number }
    {
        (number < self.cores()).then_some(Core { number })
    }

    /// The core that an affinity word names (MPIDR_EL1), if there is one. All 64 bits are looked
    /// at. It takes one step for each level, however many cores there are.
    pub fn core_of(&self, word: u64) -> Option<Core>
        ensures core { result ≡ core_of self.now word }
        ensures inside { IfSome result (λ core. core.number < cores self.now) }
    {
        let place = place_of(&self.levels, word, 0)?;
        Some(Core { number: place })
    }

    /// The node of this level that an affinity word names, if there is one: fields below the level
    /// are not looked at. There is none on a level above the height. It takes one step for each
    /// level, however many nodes there are.
    pub fn node_of(&self, word: u64, level: u32) -> Option<Node>
        ensures { result ≡ node_of self.now word level }
    {
        if level > self.height() {
            return None;
        }
        let place = place_of(&self.levels, word, level)?;
        Some(Node { level, place })
    }

    /// The core and the nodes above it, up to the system, in one step for each level.
    pub fn path(&self, core: Core) -> ArrayVec<Node, MOST_ON_PATH>
        requires { core.number < cores self.now }
        ensures { result.items ≡ path self.now core.number }
    {
        path_of(&self.levels, core.number)
    }

    /// The level of a node of this board: 0 for a core, the height for the system.
    pub fn level(&self, node: Node) -> u32
        requires { HasNode self.now node }
        ensures { result ≡ node.level }
    {
        node.level
    }

    /// How many children a node has, 1 to 16 above a core. A core has none, nor has a node that is
    /// not of this board.
    pub fn children(&self, node: Node) -> u32
        ensures { result ≡ children self.now node }
    {
        match self.level_at(node.level) {
            Some(level) => u32::from(level.children(node.place)),
            None => 0,
        }
    }

    /// The child of this number of a node, from left to right and from 0, if there is one.
    pub fn child(&self, node: Node, number: u32) -> Option<Node>
        ensures { result ≡ child self.now node number }
    {
        let level = self.level_at(node.level)?;
        let place = level.child(node.place, number)?;
        Some(Node {
            level: node.level - 1,
            place,
        })
    }

    /// The node whose child a node is, one level up. The system has none, nor has a node that is
    /// not of this board.
    pub fn parent(&self, node: Node) -> Option<Node>
        ensures { result ≡ parent self.now node }
    {
        let level = self.levels.get(node.level as usize)?;
        if node.place >= level.all_children() {
            return None;
        }
        Some(Node {
            level: node.level + 1,
            place: level.parent(node.place),
        })
    }

    /// The number of a node among the children of its parent, from left to right and from 0. The
    /// system has none, nor has a node that is not of this board.
    pub fn child_number(&self, node: Node) -> Option<u32>
        ensures { result ≡ child_number self.now node }
    {
        let level = self.levels.get(node.level as usize)?;
        if node.place >= level.all_children() {
            return None;
        }
        Some(u32::from(level.number(node.place)))
    }

    /// How many nodes a level has: none above the height.
    pub fn nodes(&self, level: u32) -> u16
        ensures there { level ≤ height self.now → result ≡ nodes self.now level }
        ensures above { height self.now < level → result ≡ 0 }
    {
        match self.levels.get(level as usize) {
            Some(above) => above.all_children(),
            None => u16::from(level == self.height()),
        }
    }

    /// The cores below a node, which stand side by side, if the board has the node. It takes one
    /// step for each level, however many cores there are.
    #[tactic(auto, using(crate::proofs::Paths::walk))]
    pub fn cores_below(&self, node: Node) -> Option<CoreSpan>
        ensures { result ≡ cores_below self.now node }
    {
        if node.place >= self.nodes(node.level) {
            return None;
        }
        let (lower, _) = self.levels.split_at(node.level as usize);
        let first = first_core(lower, node.place);
        let end = first_core(lower, node.place + 1);
        Some(CoreSpan {
            first,
            count: end - first,
        })
    }

    /// The same board, in memory of its own.
    pub fn copy(&self, alloc: Global) -> Result<Board, Memory>
        ensures { IfOk result (λ board. board ≡ self.now) }
    {
        Ok(Board {
            levels: copies(alloc, &self.levels)?,
            ranges: Vec::from_slice(alloc, &self.ranges)?,
            boot: self.boot,
            starts: self.starts,
            lives: self.lives,
            format: self.format,
        })
    }

    /// Where the boot core enters first.
    pub fn boot(&self) -> u64
        ensures boot { result ≡ self.now.boot }
        ensures enterable { may_enter self.now result ≡ true }
    {
        self.boot
    }

    /// How often a core may be started in one life, 1 to 2^32-1.
    pub fn start_limit(&self) -> u32
        ensures { result ≡ self.now.starts }
    {
        self.starts
    }

    /// How many lives the board has, 1 to 65535.
    pub fn life_limit(&self) -> u32
        ensures { result ≡ self.now.lives }
    {
        self.lives
    }

    /// How the board's power state words are written (DEN0022D, CPU_SUSPEND).
    pub fn format(&self) -> Format
        ensures { result ≡ self.now.format }
    {
        self.format
    }

    /// Whether a core may be sent to this address: it is a multiple of 4 in an executable range.
    pub fn may_enter(&self, address: u64) -> bool
        ensures { result ≡ may_enter self.now address }
    {
        address.is_multiple_of(4) && is_in_some(&self.ranges, address)
    }

    /// The nodes of a level above the cores.
    fn level_at(&self, level: u32) -> Option<&Level>
        ensures { option_map (λ l. l.now) result ≡ level_at self.now level }
    {
        self.levels.get((level as usize).checked_sub(1)?)
    }
}

/// Whether a range holds the address.
pub fn is_in_some(ranges: &[AddressRange], address: u64) -> bool
    ensures { result ≡ is_in_some ranges.now address }
{
    ranges
        .iter()
        .any(|range| range.start <= address && address < range.end)
}
