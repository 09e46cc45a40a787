//! The power controller of one board.

use crate::domains::{domain, off_domains};
use crate::level::Level;
use crate::row::{CoreRow, off_cores};
use crate::starting::{begin_life, start_core};
use psci_board::{Board, Core, Memory, Node};
use psci_ctl_spec::{Cause, Delivery, Kick, Start, law_limits};
use psci_messages::Message;
use std::alloc::Global;
use std::marker::Model;

/// The power controller of one board. Contracts see the board, and what is kept of each core and of
/// each power domain.
#[derive(Drop)]
pub struct Controller {
    pub(crate) board: Board,
    /// None once the system is off.
    pub(crate) life: Option<u32>,
    /// In the order of the numbers of the cores.
    pub(crate) cores: Vec<CoreRow>,
    /// By level, from the cores up.
    pub(crate) domains: Vec<Level>,
}

impl Model for Controller {
    ghost use Rattle.psci_ctl.specs.Seen.{ControllerValue, IsController};

    ghost Value = { ControllerValue };

    ghost view = { λ c. record {
      board = c.board;
      life = c.life;
      cores = c.cores.items;
      domains = c.domains.items;
    } };

    ghost invariant = { λ c. IsController (record {
      board = c.board;
      life = c.life;
      cores = c.cores.items;
      domains = c.domains.items;
    }) };
}

ghost use Rattle.std.specs.Prelude.{◌≡◌, ◌<◌, ◌≤◌, ◌+◌, Option, None, Some, length, IfOk, IsSome};
ghost use Rattle.psci_board.specs.Board.{HasNode, cores};
ghost use Rattle.psci_ctl_spec.specs.Replies.{after, change, last_start, next_start, reply};
ghost use Rattle.psci_ctl_spec.specs.Replies.{with_start};
ghost use Rattle.psci_ctl_spec.specs.History.{IsOfBoard};
ghost use Rattle.psci_ctl_spec.specs.Values.{start_of_life};
ghost use Rattle.psci_ctl_spec.specs.declared.call.CtlCall.TheVariants as calls;
ghost use Rattle.psci_ctl_spec.specs.declared.delivery.Delivery.TheVariants as deliveries;
ghost use Rattle.psci_ctl_spec.specs.declared.kick.Kick.TheVariants as kicks;
ghost use Rattle.psci_ctl_spec.specs.declared.reply.CtlReply.TheVariants as replies;
ghost use Rattle.psci_ctl.specs.Rows.{core_row};
ghost use Rattle.psci_ctl.specs.Seen.{seen, Leaves};

impl Controller {
    /// The power controller of this board, as its first life begins: the boot core is started, and
    /// every domain off its path is powered down. It takes the memory of all its calls here: a copy
    /// of the board, and a row for each core and each domain.
    pub fn new(alloc: Global, board: &Board) -> Result<Controller, Memory>
        ensures board { IfOk result (λ c. c.board ≡ board.now) }
        ensures values { IfOk result (λ c. seen c ≡ start_of_life board.now) }
    {
        law_limits();
        let board = board.copy(alloc)?;
        let mut cores = off_cores(alloc, &board)?;
        let mut domains = off_domains(alloc, &board)?;
        begin_life(&board, &mut cores, &mut domains);
        Ok(Controller {
            board,
            life: Some(1),
            cores,
            domains,
        })
    }

    /// The board.
    pub fn board(&self) -> &Board
        ensures { result.now ≡ self.now.board }
    {
        &self.board
    }

    /// The board, as all else is let go: so a board may be let go with no more on the stack.
    pub fn into_board(self) -> Board
        ensures { result ≡ self.board }
    {
        let Controller {
            board,
            life: _,
            cores,
            domains,
        } = self;
        drop(cores);
        drop(domains);
        board
    }

    /// The present life, counted from 1; None once the system is off.
    pub fn life(&self) -> Option<u32>
        ensures { result ≡ (seen self.now).life }
    {
        self.life
    }

    /// How many times a core was started in this life, 0 without a life.
    pub fn starts(&self, core: Core) -> u32
        requires { core.number < cores self.now.board }
        ensures { result ≡ (seen self.now).starts core.number }
    {
        self.cores[core.number as usize].starts
    }

    /// The last start of a core in this life, if there is a life and a start.
    pub fn started(&self, core: Core) -> Option<Start>
        requires { core.number < cores self.now.board }
        ensures { result ≡ last_start (seen self.now) core.number }
    {
        let life = self.life?;
        let row = self.cores[core.number as usize];
        (row.starts != 0).then_some(Start {
            life,
            number: row.starts,
            cause: row.cause,
        })
    }

    /// How deep a power domain is: 0 fully on, 1 standby, 2 retention, 3 power-down. Without a life
    /// nothing is said of it.
    pub fn depth(&self, node: Node) -> u8
        requires { HasNode self.now.board node }
        ensures { IsSome self.now.life → result ≡ (seen self.now).depth node.level node.place }
    {
        domain(&self.domains, node).depth
    }

    /// A message reaches the power controller. One of another life is ignored, and so is each
    /// without a life; else it is carried out as far as it can be, and acknowledged. A Start takes
    /// one step for each level; a Down one for each child of the domains on the sender's path,
    /// however many cores there are below; a Reset writes each row anew.
    pub fn deliver(&mut self, message: &Message) -> Delivery
        requires { IsOfBoard self.old.board message.now }
        ensures reply { replies.Delivery result
            ≡ reply self.old.board (seen self.old) (calls.Deliver message.now) }
        ensures after { seen self.new ≡ after self.old.board (calls.Deliver message.now)
            (replies.Delivery result) (seen self.old) }
        ensures board { self.new.board ≡ self.old.board }
        ensures ignored { result ≡ deliveries.Ignored → self.new ≡ self.old }
    {
        let Some(life) = self.life else {
            return Delivery::Ignored;
        };
        if life != message.life {
            return Delivery::Ignored;
        }
        let done = self.carry_out(message);
        Delivery::Applied(done.ack(message))
    }

    /// A core has a wake-up event, after it stopped in its start of number `halted` (0 where it was
    /// not started in this life). It is started, unless it was started since or can't be once more;
    /// without a life the event is ignored.
    pub fn wake(&mut self, core: Core, halted: u32) -> Kick
        requires { core.number < cores self.old.board }
        ensures reply { replies.Kick result
            ≡ reply self.old.board (seen self.old) (calls.Wake core halted) }
        ensures after { seen self.new ≡ after self.old.board (calls.Wake core halted)
            (replies.Kick result) (seen self.old) }
        ensures board { self.new.board ≡ self.old.board }
        ensures ignored { result ≡ kicks.Ignored → self.new ≡ self.old }
    {
        let Some(life) = self.life else {
            return Kick::Ignored;
        };
        if self.starts(core) != halted || !self.may_start(core) {
            return Kick::Ignored;
        }
        Kick::Started(self.start(life, core, Cause::Wake))
    }

    /// A core is reset by itself: it is started, unless it can't be once more; without a life the
    /// reset is ignored.
    pub fn reset(&mut self, core: Core) -> Kick
        requires { core.number < cores self.old.board }
        ensures reply { replies.Kick result
            ≡ reply self.old.board (seen self.old) (calls.Reset core) }
        ensures after { seen self.new ≡ after self.old.board (calls.Reset core)
            (replies.Kick result) (seen self.old) }
        ensures board { self.new.board ≡ self.old.board }
        ensures ignored { result ≡ kicks.Ignored → self.new ≡ self.old }
    {
        let Some(life) = self.life else {
            return Kick::Ignored;
        };
        if !self.may_start(core) {
            return Kick::Ignored;
        }
        Kick::Started(self.start(life, core, Cause::Reset))
    }

    /// A core is started, in this life.
    pub(crate) fn start(&mut self, life: u32, core: Core, cause: Cause) -> Start
        requires core { core.number < cores self.old.board }
        requires life { self.old.life ≡ Some life }
        requires more { (seen self.old).starts core.number < self.old.board.starts }
        ensures start { result ≡ next_start life (seen self.old) core.number cause }
        ensures left { Leaves self.old self.new
            (with_start self.old.board core.number cause (seen self.old)) }
    {
        law_limits();
        start_core(&self.board, &mut self.cores, &mut self.domains, core, cause);
        Start {
            life,
            number: self.starts(core),
            cause,
        }
    }
}
