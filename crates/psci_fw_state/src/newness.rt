//! Whether a state is that of a new firmware: what is asked of a loaded one of life 0.

ghost use Rattle.std.specs.Prelude.{◌≡◌, ◌<◌, ◌≤◌, ◌+◌};
ghost use Rattle.std.specs.List.{list_all, range_with_len};
ghost use Rattle.psci_board.specs.Board.{HasNode, cores, height};
ghost use Rattle.psci_fw_state.specs.New.{are_first_depths, is_first_core, is_first_domain};
ghost use Rattle.psci_fw_state.specs.New.{is_first_level, is_first_opening, is_first_phase};
ghost use Rattle.psci_fw_state.specs.New.{is_first_status, is_new, is_silent};
ghost use Rattle.psci_fw_state.specs.Seen.{values_in};

use crate::state::State;
use psci_board::{Board, Core, Node};
use psci_fw_spec::{Opening, Status, SuspendMode};
use psci_state::POWER_DOWN;

impl State {
    /// Whether all is as it is kept by a new firmware, before any core has entered: exactly then
    /// its values are those of one, as `law_new` says.
    #[tactic(auto, unfolding(crate::specs::Seen::values_in))]
    pub fn is_new(&self) -> bool
        ensures { result ≡ is_new self.now.board (values_in self.now) }
    {
        self.life == 0
            && !self.halting
            && self.mode == SuspendMode::Platform
            && self.are_first_cores()
            && self.are_first_domains()
            && self.is_all_silent()
    }

    /// Whether each core is as a life begins.
    fn are_first_cores(&self) -> bool
        ensures { result ≡ list_all (is_first_core self.now.board (values_in self.now))
            (range_with_len 0 (cores self.now.board)) }
    {
        (0..self.board.cores()).all(|number| self.is_first_core(Core { number }))
    }

    /// Whether one core is.
    fn is_first_core(&self, core: Core) -> bool
        requires { core.number < cores self.now.board }
        ensures { result ≡ is_first_core self.now.board (values_in self.now) core.number }
    {
        self.known_inside(core) == 0
            && is_first_status(core, self.status(core))
            && self.is_first_phase(core)
            && is_first_opening(&self.board, core, self.opening(core))
    }

    /// Whether its phase is.
    fn is_first_phase(&self, core: Core) -> bool
        ensures { result ≡ is_first_phase core.number ((values_in self.now).phase core.number) }
    {
        if core.number == 0 {
            self.is_pending(core)
        } else {
            self.is_away(core)
        }
    }

    /// Whether each domain is as a life begins.
    fn are_first_domains(&self) -> bool
        ensures { result ≡ list_all (is_first_level self.now.board (values_in self.now))
            (range_with_len 0 (height self.now.board + 1)) }
    {
        (0..self.board.height() + 1).all(|level| self.is_first_level(level))
    }

    /// Whether each domain of one level is.
    fn is_first_level(&self, level: u32) -> bool
        requires { level ≤ height self.now.board }
        ensures { result ≡ is_first_level self.now.board (values_in self.now) level }
    {
        (0..self.board.nodes(level)).all(|place| self.is_first_domain(Node { level, place }))
    }

    /// Whether one domain is.
    #[tactic(auto, unfolding(crate::specs::Seen::values_in))]
    fn is_first_domain(&self, node: Node) -> bool
        requires { HasNode self.now.board node }
        ensures { result
            ≡ is_first_domain self.now.board (values_in self.now) node.level node.place }
    {
        let own = self.tree.on_path(Core { number: 0 }, node.level);
        let granted = self.tree.granted(node);
        let confirmed = self.tree.confirmed(node);
        are_first_depths(node.place == own.place, granted, confirmed)
    }

    /// Whether no message waits for an acknowledgement.
    fn is_all_silent(&self) -> bool
        ensures { result ≡ list_all (is_silent self.now.board (values_in self.now))
            (range_with_len 0 (cores self.now.board + 1)) }
    {
        (0..self.board.cores() + 1).all(|number| self.is_silent(number))
    }

    /// Whether none waits of the core of this number, or of the system at the number of cores.
    fn is_silent(&self, number: u16) -> bool
        ensures { result ≡ is_silent self.now.board (values_in self.now) number }
    {
        match self.outstanding(number) {
            Some(_) => false,
            None => true,
        }
    }
}

/// Whether a core has the status that it has as a life begins.
fn is_first_status(core: Core, status: Status) -> bool
    ensures { result ≡ is_first_status core.number status }
{
    match status {
        Status::On => false,
        Status::Off => core.number != 0,
        Status::Pending => core.number == 0,
    }
}

/// Whether it goes on where it does as a life begins.
fn is_first_opening(board: &Board, core: Core, opening: Option<Opening>) -> bool
    ensures { result ≡ is_first_opening board.now core.number opening }
{
    match opening {
        None => core.number != 0,
        Some(opening) => {
            core.number == 0 && opening.address == board.boot() && opening.context == 0
        }
    }
}

/// Whether a domain was granted this depth as a life begins, and it is confirmed or not as then:
/// nothing on the path of the boot core, and beside it power-down, which is confirmed.
fn are_first_depths(on_path: bool, granted: u8, confirmed: bool) -> bool
    ensures { result ≡ are_first_depths on_path granted confirmed }
{
    if on_path {
        granted == 0 && !confirmed
    } else {
        granted == POWER_DOWN && confirmed
    }
}
