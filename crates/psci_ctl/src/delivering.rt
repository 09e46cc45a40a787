//! What the power controller does with a message of this life.

ghost use Rattle.std.specs.Prelude.{◌+◌, ◌<◌, ◌==◌, ◌≡◌, ◌≤◌, if◌then◌else◌, length, nat_lt, Some};
ghost use Rattle.std.specs.Prelude.{take, true, ℕ};
ghost use Rattle.psci_board.specs.Board.{cores, domain_of, height, nodes, path, HasNode};
ghost use Rattle.psci_messages.specs.Message.{PartByPart, AreClaims, most_applied};
ghost use Rattle.psci_ctl_spec.specs.Replies.{ack_by, ack_of, Begins, change, Ends, may_follow};
ghost use Rattle.psci_ctl_spec.specs.Replies.{may_start, message_effect, with_start};
ghost use Rattle.psci_ctl_spec.specs.History.{IsOfBoard};
ghost use Rattle.psci_ctl_spec.specs.Values.{applied, is_covered, is_stale, laid, starts_below};
ghost use Rattle.psci_messages.specs.psci_state.PowerState.{power_down};
ghost use Rattle.psci_messages.specs.declared.start.Cause.TheVariants.{On};
ghost use Rattle.psci_ctl.specs.Rows.{deepened};
ghost use Rattle.psci_ctl.specs.Seen.{done, seen, start_done, Leaves};

use crate::controller::Controller;
use crate::covering::is_covered;
use crate::domains::{domain, set_domain};
use crate::done::Done;
use crate::level::DomainRow;
use crate::row::forget_starts;
use crate::starting::begin_life;
use psci_board::{Core, Node, law_paths};
use psci_ctl_spec::{Cause, law_limits};
use psci_messages::{Kind, Message, Part, law_parts};

impl Controller {
    /// Whether a core may be started once more.
    pub(crate) fn may_start(&self, core: Core) -> bool
        requires { core.number < cores self.now.board }
        ensures { result ≡ may_start self.now.board (seen self.now) core.number }
    {
        self.cores[core.number as usize].starts < self.board.start_limit()
    }

    /// Starts a core, unless it had a start that the message does not count, or can't be once more.
    pub(crate) fn start_on(&mut self, life: u32, core: Core, number: u32) -> Done
        requires core { core.number < cores self.old.board }
        requires life { self.old.life ≡ Some life }
        ensures done { result
            ≡ start_done (may_follow self.old.board (seen self.old) core.number number) }
        ensures left { Leaves self.old self.new
            (if may_follow self.old.board (seen self.old) core.number number
            then with_start self.old.board core.number On (seen self.old)
            else seen self.old) }
    {
        if self.starts(core) != number || !self.may_start(core) {
            return Done::LATE;
        }
        let _start = self.start(life, core, Cause::On);
        Done::WHOLE
    }

    /// The life ends, and none follows.
    pub(crate) fn end_life(&mut self) -> Done
        ensures done { result ≡ start_done true }
        ensures left { Leaves self.old self.new (change self.old.board Ends (seen self.old)) }
    {
        self.life = None;
        forget_starts(&mut self.cores);
        Done::WHOLE
    }

    /// The next life begins; after the last one none does.
    pub(crate) fn reset_system(&mut self, life: u32) -> Done
        requires { self.old.life ≡ Some life }
        ensures done { result ≡ start_done true }
        ensures left { Leaves self.old self.new (change self.old.board
            (if nat_lt life self.old.board.lives then Begins else Ends) (seen self.old)) }
    {
        law_limits();
        if life >= self.board.life_limit() {
            return self.end_life();
        }
        self.life = Some(life + 1);
        begin_life(&self.board, &mut self.cores, &mut self.domains);
        Done::WHOLE
    }

    /// The domain of a core at this level, of those on its path.
    fn domain_on_path(&self, core: Core, on_path: &[Node], level: u32) -> Node
        requires core { core.number < cores self.now.board }
        requires path { on_path.now ≡ path self.now.board core.number }
        requires level { level ≤ height self.now.board }
        ensures domain { result ≡ domain_of self.now.board core.number level }
        ensures inside { result.place < nodes self.now.board result.level }
    {
        law_paths();
        let height = self.board.height();
        prove!(level <= height);
        let _core = core;
        on_path[level as usize]
    }

    /// Whether a part's generation counts every start below its domain.
    fn is_live(&self, node: Node, part: &Part) -> bool
        requires level { node.level ≤ height self.now.board }
        requires life { (l : ℕ) × (self.now.life ≡ Some l) }
        ensures { result ≡ (part.now.generation
            == starts_below self.now.board (seen self.now).starts node) }
    {
        domain(&self.domains, node).starts == part.generation
    }

    /// Whether every child of this domain is at least as deep as the part asks.
    fn is_covered(&self, node: Node, part: &Part) -> bool
        requires { HasNode self.now.board node }
        ensures { result ≡ is_covered self.now.board (seen self.now).depth node part.now.depth }
    {
        is_covered(&self.domains, &self.board, node, part.depth)
    }

    /// This domain goes to this depth.
    fn deepen(&mut self, node: Node, depth: u8)
        requires node { HasNode self.old.board node }
        requires depth { depth ≤ power_down }
        ensures { Leaves self.old self.new (record (seen self.old) {
          depth = deepened node depth (seen self.old).depth;
        }) }
    {
        law_limits();
        let row = DomainRow {
            depth,
            ..domain(&self.domains, node)
        };
        set_domain(&mut self.domains, node, row);
    }

    /// Applies the parts of a Down, the lowest level first, up to the first that can't be applied:
    /// one that is out of date, or whose domain has a child that is not as deep. It takes one step
    /// for each child of the domains on the core's path.
    pub(crate) fn take_down(&mut self, core: Core, parts: &[Part]) -> Done
        requires core { core.number < cores self.old.board }
        requires parts { PartByPart parts.now × (length parts.now ≤ height self.old.board + 1) }
        requires life { (l : ℕ) × (self.old.life ≡ Some l) }
        ensures done { result ≡ done (applied self.old.board (seen self.old) core.number parts.now)
            (is_stale self.old.board (seen self.old) core.number parts.now) }
        ensures left { Leaves self.old self.new (record (seen self.old) {
          depth = laid self.old.board core.number (take result.applied parts.now)
              (seen self.old).depth;
        }) }
    {
        let path = self.board.path(core);
        let on_path = path.as_slice();
        let mut applied: u8 = 0;
        for part in parts {
            let node = self.domain_on_path(core, on_path, part.level);
            if !self.is_live(node, part) {
                return Done::of(applied, true);
            }
            if !self.is_covered(node, part) {
                return Done::of(applied, false);
            }
            self.deepen(node, part.depth);
            applied += 1;
        }
        Done::of(applied, false)
    }

    /// Carries out a message of this life.
    pub(crate) fn carry_out(&mut self, message: &Message) -> Done
        requires board { IsOfBoard self.old.board message.now }
        requires life { self.old.life ≡ Some message.now.life }
        ensures ack { ack_of message.now result.applied result.stale
            ≡ ack_by self.old.board (seen self.old) message.now message.now.kind }
        ensures left { Leaves self.old self.new (change self.old.board
            (message_effect self.old.board message.now
            (ack_of message.now result.applied result.stale) message.now.kind) (seen self.old)) }
        ensures most { result.applied ≤ most_applied message.now.kind }
    {
        law_parts();
        let (life, core) = (message.life, message.core);
        match message.kind {
            Kind::Down => self.take_down(core, message.parts.as_slice()),
            Kind::Start => self.start_on(life, core, message.number),
            Kind::Off => self.end_life(),
            Kind::Reset => self.reset_system(life),
        }
    }
}
