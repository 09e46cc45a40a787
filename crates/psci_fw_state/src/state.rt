//! The state of the firmware: its board, and all that a call changes.

use crate::counts::{StatusCounts, no_counts, reset_counts};
use crate::row::{CoreRow, first_rows, row_of};
use psci_board::{Board, Core, Memory, Node};
use psci_fw_spec::{FwFault, Hw, Opening, Status, SuspendMode};
use psci_messages::{Message, Slots};
use psci_state::POWER_DOWN;
use psci_tree::{Activity, Tree, law_start_of_life};
use std::alloc::Global;
use std::marker::Model;

/// The state of the firmware of one board. The tree has what each core asks, its known start and
/// the granted depths; the rows have the rest of what is kept of a core, and the counts sum up the
/// statuses in them.
#[derive(Drop)]
pub struct State {
    /// The board whose firmware it is of.
    pub(crate) board: Board,
    /// 0 before any core has entered.
    pub(crate) life: u32,
    /// SYSTEM_OFF, SYSTEM_RESET or SYSTEM_RESET2 was accepted in this life.
    pub(crate) halting: bool,
    pub(crate) mode: SuspendMode,
    pub(crate) tree: Box<Tree>,
    /// In the order of the numbers of the cores.
    pub(crate) rows: Vec<CoreRow>,
    /// From level 1 up, of each power domain.
    pub(crate) counts: Vec<Vec<StatusCounts>>,
    pub(crate) slots: Slots,
}

impl Model for State {
    ghost use Rattle.std.specs.Prelude.{map};
    ghost use Rattle.psci_fw_state.specs.Seen.{IsState, StateValue};

    ghost Value = { StateValue };

    ghost view = { λ s. record {
      board = s.board;
      life = s.life;
      halting = s.halting;
      mode = s.mode;
      tree = s.tree.value;
      rows = s.rows.items;
      counts = map (λ v. v.items) s.counts.items;
      slots = s.slots;
    } };

    ghost invariant = { λ s. IsState (record {
      board = s.board;
      life = s.life;
      halting = s.halting;
      mode = s.mode;
      tree = s.tree.value;
      rows = s.rows.items;
      counts = map (λ v. v.items) s.counts.items;
      slots = s.slots;
    }) };
}

ghost use Rattle.std.specs.Prelude.{◌≡◌, ◌<◌, None, Some, IfOk, MatchResult, option_map};
ghost use Rattle.psci_fw_spec.specs.Answer.{call_fault};
ghost use Rattle.psci_fw_spec.specs.Changes.{start_of_life};
ghost use Rattle.psci_fw_spec.specs.NodeHwState.{node_hw};
ghost use Rattle.psci_fw_spec.specs.Phases.{is_away, is_resumable, is_running};
ghost use Rattle.psci_board.specs.Board.{IsBoard, cores};
ghost use Rattle.psci_fw_state.specs.Seen.{is_pending_phase, message_shown, values_in};
ghost use Rattle.psci_fw_state.specs.Trees.{IsFirstTree};

impl State {
    /// The state of this board's firmware before any core has entered, in memory of its own.
    pub fn new(alloc: Global, board: &Board) -> Result<Box<State>, Memory>
        ensures board { IfOk result (λ state. state.value.board ≡ board.now) }
        ensures values { IfOk result (λ state. values_in state.value ≡ start_of_life board.now 0) }
        ensures valid { IfOk result (λ _. IsBoard board.now) }
    {
        let tree = Tree::new(alloc, board)?;
        State::with_tree(alloc, board, tree)
    }

    /// The same, of a tree at the start of a life. It has a frame of its own, so that none is held
    /// while the tree is made.
    #[inline(never)]
    fn with_tree(alloc: Global, board: &Board, tree: Box<Tree>) -> Result<Box<State>, Memory>
        requires { IsFirstTree board.now tree.value }
        ensures board { IfOk result (λ state. state.value.board ≡ board.now) }
        ensures values { IfOk result (λ state. values_in state.value ≡ start_of_life board.now 0) }
        ensures valid { IfOk result (λ _. IsBoard board.now) }
    {
        law_start_of_life();
        let slots = Slots::new(alloc, board.cores())?;
        let rows = first_rows(alloc, board)?;
        let mut counts = no_counts(alloc, board)?;
        reset_counts(&mut counts, &rows, &tree, board);
        let state = State {
            board: board.copy(alloc)?,
            life: 0,
            halting: false,
            mode: SuspendMode::Platform,
            tree,
            rows,
            counts,
            slots,
        };
        match Box::new(alloc, state) {
            Ok(state) => Ok(state),
            Err(_) => Err(Memory),
        }
    }

    /// The board whose firmware it is of.
    pub fn board(&self) -> &Board
        ensures same { result.now ≡ self.now.board }
        ensures board { IsBoard self.now.board }
    {
        &self.board
    }

    /// The life of the last start that entered, 0 before any.
    #[tactic(auto, unfolding(crate::specs::Seen::values_in))]
    pub fn life(&self) -> u32
        ensures { result ≡ (values_in self.now).life }
    {
        self.life
    }

    /// Whether SYSTEM_OFF, SYSTEM_RESET or SYSTEM_RESET2 was accepted in this life.
    #[tactic(auto, unfolding(crate::specs::Seen::values_in))]
    pub fn halting(&self) -> bool
        ensures { result ≡ (values_in self.now).halting }
    {
        self.halting
    }

    /// Who coordinates the power domains.
    #[tactic(auto, unfolding(crate::specs::Seen::values_in))]
    pub fn mode(&self) -> SuspendMode
        ensures { result ≡ (values_in self.now).mode }
    {
        self.mode
    }

    /// The known start of a core.
    #[tactic(auto, unfolding(crate::specs::Seen::values_in))]
    pub fn known(&self, core: Core) -> u32
        ensures { result ≡ (values_in self.now).known core.number }
    {
        self.tree.known_start(core)
    }

    /// The known start of a core of the board.
    #[tactic(auto, unfolding(crate::specs::Seen::values_in))]
    pub fn known_inside(&self, core: Core) -> u32
        requires { core.number < cores self.now.board }
        ensures { result ≡ (values_in self.now).known core.number }
    {
        self.tree.known_start_inside(core)
    }

    /// What AFFINITY_INFO says of a core of the board.
    #[tactic(auto, unfolding(crate::specs::Seen::values_in))]
    pub fn status(&self, core: Core) -> Status
        requires { core.number < cores self.now.board }
        ensures { result ≡ (values_in self.now).status core.number }
    {
        self.rows[core.number as usize].status
    }

    /// Where a core goes on when it next enters.
    #[tactic(auto, unfolding(crate::specs::Seen::values_in))]
    pub fn opening(&self, core: Core) -> Option<Opening>
        requires { core.number < cores self.now.board }
        ensures { result ≡ (values_in self.now).opening core.number }
    {
        self.rows[core.number as usize].opening
    }

    /// The granted depth of a power domain.
    #[tactic(auto, unfolding(crate::specs::Seen::values_in))]
    pub fn granted(&self, node: Node) -> u8
        ensures { result ≡ (values_in self.now).granted node.level node.place }
    {
        if node.place < self.board.nodes(node.level) {
            self.tree.granted(node)
        } else {
            0
        }
    }

    /// The hardware state of a power domain.
    #[tactic(auto, unfolding(crate::specs::Seen::values_in))]
    pub fn hw(&self, node: Node) -> Hw
        ensures { result ≡ node_hw (values_in self.now) node }
    {
        if !self.confirmed(node) {
            return Hw::On;
        }
        match self.granted(node) {
            POWER_DOWN => Hw::Off,
            0 => Hw::On,
            _ => Hw::Standby,
        }
    }

    /// Whether what was granted to a power domain is confirmed.
    #[tactic(auto, unfolding(crate::specs::Seen::values_in))]
    fn confirmed(&self, node: Node) -> bool
        ensures { result ≡ (values_in self.now).confirmed node.level node.place }
    {
        if node.place < self.board.nodes(node.level) {
            self.tree.confirmed(node)
        } else {
            false
        }
    }

    /// The outstanding message of the core of this number, or of the system at the number of cores.
    #[tactic(auto, unfolding(crate::specs::Seen::values_in))]
    pub fn outstanding(&self, number: u16) -> Option<&Message>
        ensures { option_map (λ message. message.now) result
            ≡ message_shown self.now.board (values_in self.now) number }
    {
        self.slots.outstanding(number)
    }

    /// Whether a core is running.
    #[tactic(auto, unfolding(crate::specs::Seen::values_in))]
    pub fn is_running(&self, core: Core) -> bool
        ensures { result ≡ is_running ((values_in self.now).phase core.number) }
    {
        match self.tree.activity(core) {
            Activity::Active => row_of(&self.rows, core).status != Status::Pending,
            _ => false,
        }
    }

    /// Whether a core may call, or the first reason why it may not.
    #[tactic(auto, unfolding(crate::specs::Seen::values_in))]
    pub fn check_caller(&self, core: Core) -> Result<(), FwFault>
        ensures { let fault = call_fault self.now.board (values_in self.now) core.number in
            MatchResult result (λ _. fault ≡ None) (λ e. fault ≡ Some e) }
    {
        let Some(row) = self.rows.get(core.number as usize) else {
            return Err(FwFault::NoCore);
        };
        if self.life == 0 {
            return Err(FwFault::NoLife);
        }
        match self.tree.activity_inside(core) {
            Activity::Active if row.status != Status::Pending => Ok(()),
            _ => Err(FwFault::NotRunning),
        }
    }

    /// Whether a core is pending.
    #[tactic(auto, unfolding(crate::specs::Seen::values_in))]
    pub(crate) fn is_pending(&self, core: Core) -> bool
        ensures { result ≡ is_pending_phase ((values_in self.now).phase core.number) }
    {
        match self.tree.activity(core) {
            Activity::Active => row_of(&self.rows, core).status == Status::Pending,
            _ => false,
        }
    }

    /// Whether a core is off or going off.
    #[tactic(auto, unfolding(crate::specs::Seen::values_in))]
    pub fn is_away(&self, core: Core) -> bool
        ensures { result ≡ is_away ((values_in self.now).phase core.number) }
    {
        match self.tree.activity(core) {
            Activity::Away => true,
            _ => false,
        }
    }

    /// Whether a core is suspended in standby or retention.
    #[tactic(auto, unfolding(crate::specs::Seen::values_in))]
    pub fn is_resumable(&self, core: Core) -> bool
        ensures { result ≡ is_resumable ((values_in self.now).phase core.number) }
    {
        match self.tree.activity(core) {
            Activity::Suspended(ask) => !ask.deep(),
            _ => false,
        }
    }
}
