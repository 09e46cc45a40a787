//! Whether a state is such as the firmware keeps on its board: what is asked of a loaded one.

ghost use Rattle.std.specs.Prelude.{◌≡◌, ◌<◌, ◌≤◌, is_some};
ghost use Rattle.psci_board.specs.Board.{HasNode, cores, height};
ghost use Rattle.psci_messages.specs.View.{is_all_away};
ghost use Rattle.psci_state.specs.Cores.{asks};
ghost use Rattle.psci_fw_spec.specs.Invariant.{agrees, ask, is_expected, view};
ghost use Rattle.psci_fw_state.specs.Seen.{phase_by, values_in};
ghost use Rattle.psci_fw_state.specs.Sound.{is_core_awake, is_core_kept, is_core_sound, is_depth};
ghost use Rattle.psci_fw_state.specs.Sound.{is_domain_awake, is_low, is_path_awake, is_same};
ghost use Rattle.psci_fw_state.specs.Sound.{is_sound};

use crate::state::State;
use psci_board::{Core, Node, law_spans};
use psci_fw_spec::{Status, SuspendMode};
use psci_state::POWER_DOWN;
use psci_tree::Activity;

impl State {
    /// Whether each core is sound: exactly then all that is kept is such as the firmware keeps, as
    /// `law_sound` says.
    pub fn is_sound(&self) -> bool
        ensures { result ≡ is_sound self.now.board (values_in self.now) }
    {
        (0..self.board.cores()).all(|number| self.is_core_sound(Core { number }))
    }

    /// Whether one core is.
    #[tactic(auto, unfolding(crate::specs::Seen::values_in))]
    fn is_core_sound(&self, core: Core) -> bool
        requires { core.number < cores self.now.board }
        ensures { result ≡ is_core_sound self.now.board (values_in self.now) core.number }
    {
        self.is_core_kept(core) && (self.halting || self.is_core_awake(core))
    }

    /// Whether its known start, its status, its ask and what it was granted agree.
    #[tactic(auto, unfolding(crate::specs::Seen::values_in))]
    fn is_core_kept(&self, core: Core) -> bool
        requires { core.number < cores self.now.board }
        ensures { result ≡ is_core_kept self.now.board (values_in self.now) core.number }
    {
        self.known_inside(core) <= self.board.start_limit()
            && agrees(self.status(core), self.tree.activity_inside(core))
            && self.is_low(core)
            && self.granted(own(core)) <= self.own_ask(core)
    }

    /// Whether its opening, and what the domains on its path were granted, are as they are while
    /// the life is not halting.
    #[tactic(auto, unfolding(crate::specs::Seen::values_in))]
    fn is_core_awake(&self, core: Core) -> bool
        requires { core.number < cores self.now.board }
        ensures { result ≡ is_core_awake self.now.board (values_in self.now) core.number }
    {
        self.is_awaited(core)
            && self.granted(own(core)) == self.own_ask(core)
            && self.is_path_awake(core)
    }

    /// Whether it asks nothing above the board's height.
    #[tactic(auto, unfolding(crate::specs::Seen::values_in), using(crate::proofs::Sound::low_by))]
    fn is_low(&self, core: Core) -> bool
        requires { core.number < cores self.now.board }
        ensures { result ≡ is_low self.now.board ((values_in self.now).phase core.number) }
    {
        match self.tree.activity_inside(core) {
            Activity::Suspended(ask) => ask.highest() <= self.board.height(),
            _ => true,
        }
    }

    /// What it asks of itself.
    fn own_ask(&self, core: Core) -> u8
        requires { core.number < cores self.now.board }
        ensures { result ≡ ask self.now.board (values_in self.now) core.number 0 }
    {
        own_ask(self.tree.activity_inside(core))
    }

    /// Whether an opening waits for it exactly where it goes on at one.
    #[tactic(auto, unfolding(crate::specs::Seen::values_in))]
    fn is_awaited(&self, core: Core) -> bool
        requires { core.number < cores self.now.board }
        ensures { let v = values_in self.now in result
            ≡ is_same (is_some (v.opening core.number)) (is_expected (v.phase core.number)) }
    {
        let expected = is_expected(self.status(core), self.tree.activity_inside(core));
        match self.opening(core) {
            Some(_) => expected,
            None => !expected,
        }
    }

    /// Whether each domain on its path was granted what is asked of it.
    fn is_path_awake(&self, core: Core) -> bool
        requires { core.number < cores self.now.board }
        ensures { result ≡ is_path_awake self.now.board (values_in self.now) core.number }
    {
        (0..self.board.height() + 1).all(|level| self.is_domain_awake(core, level))
    }

    /// Whether one of them was: power-down where all cores below it are away, and the least ask
    /// where the platform coordinates.
    fn is_domain_awake(&self, core: Core, level: u32) -> bool
        requires core { core.number < cores self.now.board }
        requires level { level ≤ height self.now.board }
        ensures { result ≡ is_domain_awake self.now.board (values_in self.now) core.number level }
    {
        let node = self.tree.on_path(core, level);
        let granted = self.tree.granted(node);
        let asked = self.tree.low(node, level);
        let away = self.are_all_away(node);
        is_depth(self.mode, away, asked, granted)
    }

    /// Whether all cores below a domain are off or going off.
    fn are_all_away(&self, node: Node) -> bool
        requires { HasNode self.now.board node }
        ensures { result
            ≡ is_all_away self.now.board (view self.now.board (values_in self.now)) node }
    {
        law_spans();
        match self.board.cores_below(node) {
            Some(span) => self.tree.off(node) == u32::from(span.count),
            None => false,
        }
    }
}

/// The power domain of a core alone.
fn own(core: Core) -> Node
    ensures { result ≡ record { level = 0; place = core.number } }
{
    Node {
        level: 0,
        place: core.number,
    }
}

/// Whether a domain may be granted this depth, by whether all cores below it are away, and their
/// least ask.
fn is_depth(mode: SuspendMode, away: bool, asked: u8, depth: u8) -> bool
    ensures { result ≡ is_depth mode away asked depth }
{
    let fits = !away || depth == POWER_DOWN;
    match mode {
        SuspendMode::Platform => fits && depth == asked,
        SuspendMode::OsInitiated => fits,
    }
}

/// Whether status and activity say the same of a core.
fn agrees(status: Status, activity: Activity) -> bool
    ensures { result ≡ agrees status (phase_by status activity) }
{
    match status {
        Status::On => true,
        Status::Off => matches!(activity, Activity::Away),
        Status::Pending => matches!(activity, Activity::Active),
    }
}

/// Whether a core goes on at an opening when it next enters.
#[tactic(auto, using(crate::proofs::Sound::expected_by))]
fn is_expected(status: Status, activity: Activity) -> bool
    ensures { result ≡ is_expected (phase_by status activity) }
{
    match activity {
        Activity::Active => matches!(status, Status::Pending),
        Activity::Suspended(ask) => ask.deep(),
        Activity::Away => false,
    }
}

/// What a core asks of itself.
fn own_ask(activity: Activity) -> u8
    ensures { result ≡ asks activity 0 }
{
    match activity {
        Activity::Active => 0,
        Activity::Suspended(ask) => ask.depth(0),
        Activity::Away => POWER_DOWN,
    }
}
